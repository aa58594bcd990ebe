//! What queries promise to those who answer them.
ghost use Rattle.cdx_query.specs.Laws.{QueriesHaveOneAnswer, TextsAreOneQuery};

/// A text is one query at most.
pub fn texts_are_one_query()
    ensures { TextsAreOneQuery }
{}

/// A query has one answer from the entries that are shown.
pub fn queries_have_one_answer()
    ensures { QueriesHaveOneAnswer }
{}
