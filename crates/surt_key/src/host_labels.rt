//! A domain's labels, as a key has them.
ghost use Rattle.std.specs.Prelude.{◌≡◌, map, IfOk};
ghost use Rattle.surt_key.specs.Labels as spec;

use crate::pieces::split;
use capture::Memory;
use std::alloc::Global;

/// The labels of a domain, the last one first, without a first label `www` where two or more remain.
pub fn reversed_labels(alloc: Global, domain: &[u8]) -> Result<Vec<&[u8]>, Memory>
    ensures { IfOk result (λ labels. map (λ l. l.now) labels.items ≡ spec.reversed_labels domain.now) }
{
    let mut labels = split(alloc, without_final_dot(domain), b'.')?;
    if begins_with_www(labels.as_slice()) {
        labels.remove(0);
    }
    labels.reverse();
    Ok(labels)
}

const WWW: &[u8] = b"www";

/// The domain without one dot at its end.
fn without_final_dot(domain: &[u8]) -> &[u8]
    ensures { result.now ≡ spec.without_final_dot domain.now }
{
    match domain {
        [front @ .., b'.'] => front,
        _ => domain,
    }
}

/// Whether the first of three or more labels is `www`.
fn begins_with_www(labels: &[&[u8]]) -> bool
    ensures { result ≡ spec.begins_with_www (map (λ l. l.now) labels.now) }
{
    labels.len() > 2 && labels[0] == WWW
}
