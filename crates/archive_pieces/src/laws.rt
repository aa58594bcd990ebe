//! Where the pieces of a source lead.
ghost use Rattle.archive_pieces.specs.NextPieces.{NextPiecesLeadOn};

/// The piece of a source's next capture leads from a book that the source has grown from to one that it has grown from too, with that capture
/// more; where the ids differ, to no other one. So one who takes piece after piece has a beginning of the source's book after each.
pub fn next_pieces_lead_on()
    ensures { NextPiecesLeadOn }
{}
