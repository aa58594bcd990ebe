//! Links that are made of texts.
ghost use Rattle.std.specs.Prelude.{◌≡◌, IfOk, All};
ghost use Rattle.outside.specs.MemoryLink.{IsNew};

use outside::MemoryLink;
use std::alloc::{AllocError, Global};

/// A link for each text, of which it gives a front of so many bytes at most; a call moves so many at most, and those of the
/// listed numbers fail.
pub fn links_of(
    alloc: Global,
    texts: &[Vec<u8>],
    front: usize,
    most: usize,
    fails: &[u64],
) -> Result<Vec<MemoryLink>, AllocError>
    ensures { IfOk result (λ links. All IsNew links.items) }
{
    let mut links = Vec::new(alloc);
    for text in texts {
        let (given, _) = text.as_slice().split_at(text.len().min(front));
        links.push(MemoryLink::in_pieces(
            alloc,
            given.to_vec(alloc)?,
            most.max(1),
            fails.to_vec(alloc)?,
        ))?;
    }
    Ok(links)
}
