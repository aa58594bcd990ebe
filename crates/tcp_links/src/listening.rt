//! Where the program listens.
use crate::brackets::without_brackets;
use capture::{Memory, Site};
use std::alloc::Global;
use std::env::VarError;
use std::fmt::{Display, Formatter};
use std::rt::Env;
use std::{env, fmt};

/// The variable of the environment that names a host and a port to listen at in place of the site's: in a container,
/// or behind a machine that passes connections on, the site's address isn't this machine's.
pub const LISTEN: &str = "MEMPROXY_LISTEN";

/// A host, an IPv6 address without brackets, and a port.
#[derive(Drop)]
pub struct Address {
    host: String,
    port: u16,
}

impl Address {
    /// The address of a host, an IPv6 address in brackets, and a port.
    pub fn new(alloc: Global, host: &str, port: u16) -> Result<Address, Memory> {
        Ok(Address {
            host: String::from_str(alloc, without_brackets(host))?,
            port,
        })
    }

    /// Its host.
    pub(crate) fn host(&self) -> &str {
        self.host.as_str()
    }

    /// Its port.
    pub(crate) fn port(&self) -> u16 {
        self.port
    }
}

/// An IPv6 address is printed in brackets.
impl Display for Address {
    fn fmt<W: fmt::Write>(&self, f: &mut Formatter<W>) -> fmt::Result {
        let (host, port) = (self.host(), self.port);
        if host.contains(':') {
            return write!(f, "[{host}]:{port}");
        }
        write!(f, "{host}:{port}")
    }
}

/// Where a program listens whose site is at this host and port: there, or where the environment says. `None` where
/// what that says is no `HOST:PORT`.
pub fn where_to_listen<R: Env + AllocGlobal>(
    rt: &R,
    site: &Site,
) -> Result<Option<Address>, Memory> {
    match env::var(rt, LISTEN) {
        Ok(text) => address_in(rt.alloc(), text.as_str()),
        Err(VarError::NotPresent) => {
            let address = Address::new(rt.alloc(), site.host.as_str(), site.port)?;
            Ok(Some(address))
        }
        Err(VarError::NotUnicode) => Ok(None),
        Err(VarError::OutOfMemory) => Err(Memory),
    }
}

/// The address that is written `HOST:PORT`, an IPv6 address in brackets. A port is decimal digits without a leading
/// zero, and not 0.
fn address_in(alloc: Global, text: &str) -> Result<Option<Address>, Memory> {
    let Some((host, digits)) = text.rsplit_once(':') else {
        return Ok(None);
    };
    let Some(port) = port_in(digits) else {
        return Ok(None);
    };
    if host.is_empty() {
        return Ok(None);
    }
    let address = Address::new(alloc, host, port)?;
    Ok(Some(address))
}

/// The port that is written so, or `None`.
fn port_in(digits: &str) -> Option<u16> {
    match digits.as_bytes() {
        [b'1'..=b'9', ..] => digits.parse().ok(),
        _ => None,
    }
}
