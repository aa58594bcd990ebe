//! Room for what is written of a page.
ghost use Rattle.std.specs.Prelude.{◌≡◌, ◌≤◌, ◌+◌, vec_len, vec_capacity, OnOk};

use capture::Memory;

/// Makes room for so many bytes more.
///
/// Where it has to grow it grows by an eighth of itself, up to the limit, or by what is needed: so all growth copies
/// eight times the text at most, and little memory is held beside it.
pub fn make_room(text: &mut Vec<u8>, more: usize, limit: usize) -> Result<(), Memory>
    ensures items { text.new.items ≡ text.old.items }
    ensures room { OnOk result (vec_len text.new + more ≤ vec_capacity text.new) }
{
    let capacity = text.capacity();
    let spare = capacity.saturating_sub(text.len());
    if spare >= more {
        return Ok(());
    }
    let eighth = (capacity / 8).min(limit.saturating_sub(capacity));
    text.reserve_exact(spare.saturating_add(eighth).max(more))?;
    Ok(())
}
