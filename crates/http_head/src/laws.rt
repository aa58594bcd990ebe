//! What the definitions promise to those who build on them.
ghost use Rattle.http_head.specs.FrontLaws.{EndsStay, HeadsStay, TooLongStays};

/// What is said of a stream's front stays so, however the stream goes on: where its head ends, the head within the
/// limits, and that a limit is passed.
pub fn fronts_stay()
    ensures ends { EndsStay }
    ensures heads { HeadsStay }
    ensures too_long { TooLongStays }
{}
