//! What the definitions promise to those who build on them.
ghost use Rattle.message_body.specs.BodyLaws.{HeldBodiesAreBodies, RequestHeadsTell, ResponseHeadsTell};

/// A body that was read whole is a body of its framing, so it has a payload.
pub fn held_bodies_are_bodies()
    ensures { HeldBodiesAreBodies }
{}

/// The parts of a head tell the framing that its text tells (RFC 9112, section 6.3).
pub fn heads_tell_framings()
    ensures requests { RequestHeadsTell }
    ensures responses { ResponseHeadsTell }
{}
