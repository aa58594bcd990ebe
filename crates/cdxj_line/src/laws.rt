//! What lines promise to those who read them.
ghost use Rattle.cdxj_line.specs.Told.{LinesAreToldByTheirTexts, LinesEndAtTheirLineFeed, LinesEndWhereTheyEnd};

/// Lines with one text are one line.
#[tactic(auto, using(crate::proofs::ToldLaws::lines_are_told_by_their_texts))]
pub fn lines_are_told_by_their_texts()
    ensures { LinesAreToldByTheirTexts }
{}

/// The only line feed of a line is its last byte, since a key has none and JSON escapes it in strings.
#[tactic(auto, using(crate::proofs::ToldLaws::lines_end_at_their_line_feed))]
pub fn lines_end_at_their_line_feed()
    ensures { LinesEndAtTheirLineFeed }
{}

/// No line is the beginning of another, so a text is cut into lines in one way.
#[tactic(auto, using(crate::proofs::ToldLaws::lines_end_where_they_end))]
pub fn lines_end_where_they_end()
    ensures { LinesEndWhereTheyEnd }
{}
