//! What holds of every page.
ghost use Rattle.std.specs.Prelude.{◌≡◌, ◌*◌};
ghost use Rattle.html_rewrite.specs.Split.{OneSplit, SomeSplit};
ghost use Rattle.html_rewrite.specs.declared.page.TheConstants.{PAGE_LIMIT};

/// A page has one split: two splits of it are the same pieces.
pub fn a_page_has_one_split()
    ensures { OneSplit }
{}

/// Every page has a split.
pub fn a_page_has_a_split()
    ensures { SomeSplit }
{}

/// What the limit is that `rewrite` speaks of: a rewritten page has at most 256 MiB.
pub fn limits_are_these()
    ensures { PAGE_LIMIT ≡ 256 * 1024 * 1024 }
{}
