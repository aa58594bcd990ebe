//! What the definitions promise to those who build on them.
ghost use Rattle.exchange.specs.Storing.{RequestsCanBeStored};

/// A request that was read and is aimed at an origin is forwarded as one whole request of its method, of every framing, which
/// is short enough to be stored.
pub fn requests_can_be_stored()
    ensures { RequestsCanBeStored }
{}
