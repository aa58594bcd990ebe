//! How far a disk's syncs answer for its files.
ghost use Rattle.std.specs.Prelude.{◌≡◌, ◌≢◌, ◌≤◌, ◌+◌, true, false, None, Some, IsTrue, IfSome};
ghost use Rattle.held_folder.specs.declared.trust.Further.TheVariants.{Absent, Unsettled};
ghost use Rattle.held_folder.specs.declared.trust.Written.{Written};
ghost use Rattle.held_folder.specs.Doubts.{range_of, doubt_in, with_range, AfterWhole, AfterPart, AfterCut, AfterCutPart, AfterSync, AfterFailure, KeepsDoubt, GoesOn, SyncedTo, IsOtherRange, further_of, with_further, unlisted, unlisted_all};

use disk_model::Kind;

/// The range of a file that was written since a sync of it was done, and nothing else was but cuts before that. An empty one is
/// a file that is as it was synced, or was cut since.
#[derive(Clone, Copy)]
pub(crate) struct Written {
    pub(crate) number: u32,
    pub(crate) at: u64,
    pub(crate) len: u64,
    /// Whether a sync of the file failed since, so that the range has to be written anew before the next one.
    pub(crate) in_doubt: bool,
}

/// Whether a file that a disk doesn't know of yet may stand behind those of a kind that it knows.
#[derive(Clone, Copy)]
pub(crate) enum Further {
    /// There is none.
    Absent,
    /// One was to be made and may be there. It is the disk's once it and the folder are synced.
    Unsettled,
    /// One was to be made and may be there, and then a sync of the folder failed, so that no later one answers for its name.
    Unlisted,
}

/// Whether syncs are still trusted, and what is known of the file of each kind that was synced or written last, and of one that
/// was to be made.
#[derive(Clone, Copy)]
pub(crate) struct Trust {
    /// A sync failed and can't be mended, a file of others has the name of one that was to be made, or others changed a file.
    pub(crate) gave_up: bool,
    pub(crate) warc: Option<Written>,
    pub(crate) cdxj: Option<Written>,
    pub(crate) further_warc: Further,
    pub(crate) further_cdxj: Further,
}

impl Trust {
    /// Nothing is in doubt, and of no file it is known what was written.
    pub(crate) fn new() -> Trust
        ensures { result ≡ record { gave_up = false; warc = None; cdxj = None; further_warc = Absent; further_cdxj = Absent } }
    {
        Trust {
            gave_up: false,
            warc: None,
            cdxj: None,
            further_warc: Further::Absent,
            further_cdxj: Further::Absent,
        }
    }

    /// What is known of a file behind those of a kind that are known.
    pub(crate) fn further(&self, kind: Kind) -> Further
        ensures { result ≡ further_of self.now kind }
    {
        match kind {
            Kind::Warc => self.further_warc,
            Kind::Cdxj => self.further_cdxj,
        }
    }

    /// Whether such a file may be there.
    pub(crate) fn has_further(&self, kind: Kind) -> bool
        ensures { result ≡ false → further_of self.now kind ≡ Absent }
    {
        match self.further(kind) {
            Further::Absent => false,
            Further::Unsettled => true,
            Further::Unlisted => true,
        }
    }

    /// Notes what is known of it.
    fn set_further(&mut self, kind: Kind, further: Further)
        ensures { self.new ≡ with_further kind further self.old }
    {
        match kind {
            Kind::Warc => self.further_warc = further,
            Kind::Cdxj => self.further_cdxj = further,
        }
    }

    /// There is no such file.
    pub(crate) fn settled(&mut self, kind: Kind)
        ensures { self.new ≡ with_further kind Absent self.old }
    {
        self.set_further(kind, Further::Absent);
    }

    /// After one that was to be made and may be there. Where it has a name that a file of others has, the disk gives up.
    pub(crate) fn missed(&mut self, kind: Kind, is_others: bool)
        ensures only { self.new ≡ record (with_further kind Unsettled self.old) { gave_up = self.new.gave_up } }
        ensures going { self.new.gave_up ≡ false → self.old.gave_up ≡ false }
    {
        self.set_further(kind, Further::Unsettled);
        if is_others {
            self.gave_up = true;
        }
    }

    /// After a sync of the folder that failed behind one that was to be made.
    pub(crate) fn missed_list(&mut self, kind: Kind)
        ensures { self.new ≡ unlisted_all (with_further kind Unsettled self.old) }
    {
        self.set_further(kind, Further::Unsettled);
        self.unlist();
    }

    /// After a sync of the folder that failed.
    pub(crate) fn unlist(&mut self)
        ensures { self.new ≡ unlisted_all self.old }
    {
        self.further_warc = unlisted(self.further_warc);
        self.further_cdxj = unlisted(self.further_cdxj);
    }

    /// What is known of a file of a kind.
    pub(crate) fn of(&self, kind: Kind) -> Option<Written>
        ensures { result ≡ range_of self.now kind }
    {
        match kind {
            Kind::Warc => self.warc,
            Kind::Cdxj => self.cdxj,
        }
    }

    /// Notes what is known of a file of a kind.
    fn set(&mut self, kind: Kind, range: Option<Written>)
        ensures { self.new ≡ with_range kind range self.old }
    {
        match kind {
            Kind::Warc => self.warc = range,
            Kind::Cdxj => self.cdxj = range,
        }
    }

    /// Notes what is known of a file of a kind. Where one that is in doubt would be forgotten the disk gives up.
    fn go_on(&mut self, kind: Kind, range: Option<Written>)
        ensures only { self.new ≡ with_range kind range (record self.old { gave_up = self.new.gave_up }) }
        ensures going { self.new.gave_up ≡ false → self.old.gave_up ≡ false }
        ensures doubt { self.new.gave_up ≡ false → KeepsDoubt (range_of self.old kind) range }
    {
        if forgets(self.of(kind), range) {
            self.gave_up = true;
        }
        self.set(kind, range);
    }

    /// After a write that was done, or failed so that all of its bytes may be torn.
    pub(crate) fn wrote(&mut self, kind: Kind, number: u32, at: u64, len: u64)
        ensures { GoesOn kind (AfterWhole number at len) self.old self.new }
    {
        let range = after_whole(self.of(kind), number, at, len);
        self.go_on(kind, range);
    }

    /// After a write that failed otherwise.
    pub(crate) fn wrote_part(&mut self, kind: Kind, number: u32, at: u64, len: u64)
        ensures { GoesOn kind (AfterPart number at len) self.old self.new }
    {
        let range = after_part(self.of(kind), number, at, len);
        self.go_on(kind, range);
    }

    /// After a cut that was done.
    pub(crate) fn cut(&mut self, kind: Kind, number: u32)
        ensures { GoesOn kind (AfterCut number) self.old self.new }
    {
        let range = after_cut(self.of(kind), number);
        self.go_on(kind, range);
    }

    /// After one that failed, which may have cut any of what it was to.
    pub(crate) fn cut_part(&mut self, kind: Kind, number: u32)
        ensures { GoesOn kind (AfterCutPart number) self.old self.new }
    {
        let range = after_cut_part(self.of(kind), number);
        self.go_on(kind, range);
    }

    /// After a sync that was done.
    pub(crate) fn synced(&mut self, kind: Kind, number: u32)
        ensures { SyncedTo kind number self.old self.new }
    {
        let range = after_sync(self.of(kind), number);
        self.set(kind, range);
    }

    /// After a sync that failed. Where it isn't known what was written of the file the disk gives up.
    pub(crate) fn failed(&mut self, kind: Kind, number: u32)
        ensures { AfterFailure kind number self.old self.new }
    {
        match doubted(self.of(kind), number) {
            Some(range) => self.set(kind, Some(range)),
            None => self.gave_up = true,
        }
    }

    /// The range of a file that is in doubt.
    pub(crate) fn doubt(&self, kind: Kind, number: u32) -> Option<Written>
        ensures some { IfSome result (λ range. range_of self.now kind
            ≡ Some (record { number = number; at = range.at; len = range.len; in_doubt = true })) }
        ensures none { result ≡ None → doubt_in (range_of self.now kind) ≢ Some number }
    {
        let range = self.of(kind)?;
        if range.number != number {
            return None;
        }
        if range.in_doubt {
            return Some(range);
        }
        None
    }
}

/// What is known of a file that was to be made, after a sync of the folder that failed.
fn unlisted(further: Further) -> Further
    ensures { result ≡ unlisted further }
{
    match further {
        Further::Absent => Further::Absent,
        Further::Unsettled => Further::Unlisted,
        Further::Unlisted => Further::Unlisted,
    }
}

/// Whether a file that is in doubt would be forgotten.
fn forgets(before: Option<Written>, after: Option<Written>) -> bool
    ensures { result ≡ false → KeepsDoubt before after }
{
    match after {
        Some(_) => false,
        None => is_in_doubt(before),
    }
}

/// Whether there is a file that is in doubt.
fn is_in_doubt(range: Option<Written>) -> bool
    ensures { result ≡ false → doubt_in range ≡ None }
{
    match range {
        Some(range) => range.in_doubt,
        None => false,
    }
}

/// Whether a write lies within a range.
fn is_within(range: &Written, at: u64, len: u64) -> bool
    ensures { IsTrue result → (range.now.at ≤ at) × (at + len ≤ range.now.at + range.now.len) }
{
    if at < range.at {
        return false;
    }
    match (at.checked_add(len), range.at.checked_add(range.len)) {
        (Some(end), Some(last)) => end <= last,
        _ => false,
    }
}

/// After a write of which all bytes may be torn: the same range, or the write's, where nothing was written before.
fn after_whole(before: Option<Written>, number: u32, at: u64, len: u64) -> Option<Written>
    ensures { AfterWhole number at len before result }
{
    let range = before?;
    if range.number != number {
        return Some(range);
    }
    if is_within(&range, at, len) {
        return Some(range);
    }
    if range.len != 0 {
        return None;
    }
    Some(Written {
        number: range.number,
        at,
        len,
        in_doubt: range.in_doubt,
    })
}

/// After writes within these bytes.
fn after_part(before: Option<Written>, number: u32, at: u64, len: u64) -> Option<Written>
    ensures { AfterPart number at len before result }
{
    let range = before?;
    if range.number != number {
        return Some(range);
    }
    if is_within(&range, at, len) {
        return Some(range);
    }
    None
}

/// After a cut that was done. Where nothing was written before, it is done again behind a sync that failed.
fn after_cut(before: Option<Written>, number: u32) -> Option<Written>
    ensures { AfterCut number before result }
{
    let range = before?;
    if range.number != number {
        return Some(range);
    }
    if range.len > 0 {
        return None;
    }
    Some(Written {
        number: range.number,
        at: 0,
        len: range.len,
        in_doubt: range.in_doubt,
    })
}

/// After a cut that failed.
fn after_cut_part(before: Option<Written>, number: u32) -> Option<Written>
    ensures { AfterCutPart number before result }
{
    let range = before?;
    if range.number != number {
        return Some(range);
    }
    None
}

/// After a sync of a file that was done.
fn after_sync(before: Option<Written>, number: u32) -> Option<Written>
    ensures { AfterSync number before result }
{
    let clean = Written {
        number,
        at: 0,
        len: 0,
        in_doubt: false,
    };
    let Some(range) = before else {
        return Some(clean);
    };
    if range.number == number {
        return Some(clean);
    }
    if range.in_doubt {
        return Some(range);
    }
    Some(clean)
}

/// The range of this file, in doubt.
fn doubted(before: Option<Written>, number: u32) -> Option<Written>
    ensures some { IfSome result (λ new. (range : Written) × (before ≡ Some range) × (range.number ≡ number) × (new ≡ record range { in_doubt = true })) }
    ensures none { result ≡ None → IsOtherRange number before }
{
    let range = before?;
    if range.number != number {
        return None;
    }
    Some(Written {
        number: range.number,
        at: range.at,
        len: range.len,
        in_doubt: true,
    })
}
