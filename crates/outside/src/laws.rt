//! What a caller may say of links that it made and hung up.
ghost use Rattle.outside.specs.HangUps.{LinksHungUpAreLogged, ConnectionsHungUpAreLogged};

/// A link that was dialled and hung up leaves its transcript in the dialer's log, and as many links are out as
/// before. So a caller that dropped one can't say that the dialer is as before but for its log.
#[tactic(auto, using(crate::proofs::HangUps::links_hung_up_are_logged))]
pub fn links_hung_up_are_logged()
    ensures { LinksHungUpAreLogged }
{}

/// A connection that a gate gave and that was hung up leaves in the gate's log what was heard on it, and as many
/// connections are out as before.
#[tactic(auto, using(crate::proofs::HangUps::connections_hung_up_are_logged))]
pub fn connections_hung_up_are_logged()
    ensures { ConnectionsHungUpAreLogged }
{}
