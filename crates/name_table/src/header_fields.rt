//! The header fields that the proxy treats by their names alone.
ghost use Rattle.std.specs.Prelude.{◌≡◌};
ghost use Rattle.name_table.specs.HeaderFields.{hop_by_hop, kept_in_memento};

use super::NameTable;

/// The header fields that a proxy doesn't pass on: those that speak of one connection (RFC 9110
/// section 7.6.1), the authentication of the proxy (section 11.7), Expect, which it answers itself
/// (section 10.1.1), and Trailer (section 6.6.2), since it passes no trailers on.
///
/// The fields that a Connection field lists aren't passed on either, and stand in no table.
#[tactic(auto, unfolding(crate::specs::HeaderFields::hop_by_hop))]
pub fn hop_by_hop_fields() -> NameTable<10>
    ensures { result ≡ hop_by_hop }
{
    NameTable::new([
        "connection",
        "expect",
        "keep-alive",
        "proxy-authenticate",
        "proxy-authorization",
        "proxy-connection",
        "te",
        "trailer",
        "transfer-encoding",
        "upgrade",
    ])
}

/// The header fields that keep their own name in a memento (RFC 7089), since they hold of the replayed
/// response too.
#[tactic(auto, unfolding(crate::specs::HeaderFields::kept_in_memento))]
pub fn memento_fields() -> NameTable<4>
    ensures { result ≡ kept_in_memento }
{
    NameTable::new([
        "content-encoding",
        "content-language",
        "content-type",
        "location",
    ])
}
