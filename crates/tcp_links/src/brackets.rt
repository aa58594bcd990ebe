//! Hosts as a dial or a bind takes them.
ghost use Rattle.tcp_links.specs.Brackets.{IsBare};

/// A host without the brackets that stand around an IPv6 address in a URL (RFC 3986 section 3.2.2).
pub(crate) fn without_brackets(host: &str) -> &str
    ensures { IsBare host.now result.now }
{
    match host.strip_prefix('[') {
        Some(rest) => match rest.strip_suffix(']') {
            Some(address) => address,
            None => host,
        },
        None => host,
    }
}
