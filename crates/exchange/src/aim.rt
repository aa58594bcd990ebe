//! Where a request is aimed.
use capture::Text;
use thiserror::Error;

/// The port of an `http` URL that names none (RFC 9110, section 4.2.1).
pub const HTTP_PORT: u16 = 80;

/// An origin that is asked.
#[derive(Drop)]
pub struct Target {
    /// The target as the client sent it.
    pub uri: Text,
    /// The host to dial, an IPv6 address in brackets.
    pub host: Text,
    /// The port to dial.
    pub port: u16,
    /// The target that the origin gets.
    pub path: Text,
}

/// Where a request goes.
#[derive(Drop)]
pub enum Aim {
    /// To an origin.
    Origin(Target),
    /// To the archive's own site, with what stands behind its authority.
    Site(Text),
}

/// Why a request is aimed nowhere.
#[derive(Clone, Copy, Debug, Error)]
pub enum AimFault {
    /// The method is CONNECT.
    #[error("the method is CONNECT")]
    ConnectRefused,
    /// The target is an https URL.
    #[error("the target is an https URL")]
    SecureRefused,
    /// The target is neither an accepted absolute one nor one of the site.
    #[error("the target isn't an accepted one")]
    TargetRefused,
    /// There was no memory.
    #[error("no memory")]
    Memory,
}
