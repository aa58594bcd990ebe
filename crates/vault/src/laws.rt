//! What holds of a vault's histories.
ghost use Rattle.vault.specs.Orderly.{NewPassesAreOrderly, ReadsKeepOrder, StoresKeepOrder};
ghost use Rattle.vault_turns.specs.Own.{OwnEntriesStay};
ghost use Rattle.vault.specs.Sharing.{HistoriesAreSharedOut, PartsAreShown, ShowingGoesOn};

/// What a pass did itself stands in each later history once, in order, and nothing else does under its numbers: a later history shows what
/// the pass has seen, as `join` and `close` say.
pub fn own_entries_stay()
    ensures { OwnEntriesStay }
{}

/// A pass is orderly from the beginning on: what it has seen begins with the book that was given, each entry behind that names a pass, and
/// the captures that it stored itself had a volume to stand in.
pub fn passes_stay_orderly()
    ensures made { NewPassesAreOrderly }
    ensures stores { StoresKeepOrder }
    ensures reads { ReadsKeepOrder }
{}

/// A history that shows a later one shows what that shows, and one that shows what a pass with the numbers of two has seen shows it for each
/// of the two: so what is closed after several joins shows what each pass had seen before them.
pub fn shown_histories_go_on()
    ensures further { ShowingGoesOn }
    ensures parts { PartsAreShown }
{}

/// A history that shows what all passes of a vault have seen is shared out among them: each capture behind those that were given was stored by
/// one pass, which sees it as its own under its number, and the faults that it tells of are those that the passes met.
pub fn histories_are_shared_out()
    ensures { HistoriesAreSharedOut }
{}
