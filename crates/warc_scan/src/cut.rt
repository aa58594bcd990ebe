//! How long a group is, by the lengths that its records tell.
ghost use Rattle.std.specs.Prelude.{◌≡◌, ◌≤◌, ℕ, List, Some, IfSome, length};
ghost use Rattle.warc_scan.specs.Answers.{BeginsWithGroup};
ghost use Rattle.warc_scan.specs.declared.group.Group.{Group as GroupForm};

use record_opening::behind_record;

/// How long the group is that the bytes begin with, by the Content-Length fields of its two records. Where a group stands
/// there, of whatever archive and number, this is its length. Nothing else of it is looked at, so that the answer shows no
/// group: it says which bytes are to be read as one. Takes no memory, and reads no block.
pub fn told_len(bytes: &[u8]) -> Option<usize>
    ensures group { (namespace : List ℕ) (number : ℕ) (group : GroupForm) → BeginsWithGroup namespace number bytes.now group
        → result ≡ Some group.len }
    ensures inside { IfSome result (λ len. len ≤ length bytes.now) }
{
    let request = behind_record(bytes)?;
    let rest = behind_record(request)?;
    Some(bytes.len() - rest.len())
}
