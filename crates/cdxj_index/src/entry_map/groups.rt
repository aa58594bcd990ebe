//! Entries that come in order, in groups of one key.
ghost use Rattle.std.specs.Prelude.{◌≡◌, ◌<◌, ◌^◌, [], ◌∷◌, ◌++◌, Contains, IfOk, OnOk};
ghost use Rattle.std.specs.declared.cmp.Ordering.TheVariants.{Less};
ghost use Rattle.index_entry.specs.Facts.{Facts};
ghost use Rattle.cdxj_index.specs.Groups.{AreGroups, IsGroup};
ghost use Rattle.cdxj_index.specs.Maps.{entry_of, shown, shown_all};
ghost use Rattle.index_entry.specs.Order.{order};

use crate::entry_map::captures::Captures;
use crate::shared::Shared;
use capture::Memory;
use std::alloc::Global;
use surt_key::Key;

/// A key and its captures.
pub(crate) type Group = (Key, Captures);

/// Puts an entry that comes after all others behind them: at the end of the last group, or into a group of its own.
pub(crate) fn append(alloc: Global, groups: &mut Vec<Group>, entry: Shared) -> Result<(), Memory>
    requires groups { AreGroups groups.old.items }
    requires last { (other : Facts) → Contains (shown_all groups.old.items) other → order other (entry_of entry) ≡ Less }
    ensures groups { OnOk result (AreGroups groups.new.items) }
    ensures shown { OnOk result (shown_all groups.new.items ≡ shown_all groups.old.items ++ entry_of entry ∷ []) }
{
    let facts = entry.facts();
    let moment = facts.moment();
    let Some((key, mut captures)) = groups.pop() else {
        groups.push(group_of(entry)?)?;
        return Ok(());
    };
    if key == facts.key {
        captures.insert(alloc, moment, entry)?;
        groups.push((key, captures))?;
        return Ok(());
    }
    groups.push((key, captures))?;
    groups.push(group_of(entry)?)?;
    Ok(())
}

/// An entry as the only one of its key.
fn group_of(entry: Shared) -> Result<Group, Memory>
    requires { (entry_of entry).number < 2 ^ 32 }
    ensures key { IfOk result (λ group. group.0 ≡ (entry_of entry).key) }
    ensures group { IfOk result IsGroup }
    ensures shown { IfOk result (λ group. shown group.1 ≡ entry_of entry ∷ []) }
{
    let facts = entry.facts();
    let key = facts.key.copy()?;
    Ok((key, Captures::One(entry)))
}
