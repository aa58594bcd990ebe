//! What is told of the volumes that are held.
ghost use Rattle.std.specs.Prelude.{◌≡◌, ◌+◌, ◌<◌, ◌^◌, ◌++◌, ◌∷◌, [], IfOk, OnOk, length};

use capture::Memory;

/// A volume, by its captures.
#[derive(Clone, Copy)]
pub struct VolumeFacts {
    /// Its number.
    pub volume: u32,
    /// How many captures stand in the volumes before it, which is the number of its first one.
    pub first: u32,
    /// How many captures it has.
    pub count: u32,
}

/// Puts a volume with so many captures behind those before it, in which so many stand; how many stand in all these.
pub(crate) fn tell(facts: &mut Vec<VolumeFacts>, first: u32, count: u32) -> Result<u32, Memory>
    requires few { length facts.old.items < 2 ^ 32 }
    requires small { first + count < 2 ^ 32 }
    ensures next { IfOk result (λ next. next ≡ first + count) }
    ensures told { OnOk result (facts.new.items
        ≡ facts.old.items ++ record { volume = length facts.old.items; first = first; count = count } ∷ []) }
{
    let volume = facts.len() as u32;
    facts.push(VolumeFacts {
        volume,
        first,
        count,
    })?;
    Ok(first + count)
}
