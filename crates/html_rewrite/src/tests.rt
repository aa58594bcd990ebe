//! The limit of a page, which no case can say: the call that has it is private, and its limit is more than memory holds.
use crate::link::Links;
use crate::page::rewrite_by;
use capture::{Memory, Site, Text};
use std::alloc::Global;
use std::test::Fail;

const NOON: u64 = 1_706_702_400_000;

const PAGE: &[u8] = b"http://a.test/p";

/// Whether the page's text is given within this limit.
fn fits(alloc: Global, page: &[u8], limit: usize) -> Result<bool, Memory> {
    let site = Site {
        base: Text::from_str(alloc, "http://localhost:8080")?,
        host: Text::from_str(alloc, "localhost")?,
        port: 8080,
    };
    let links = Links::new(alloc, PAGE, NOON, &site, limit)?;
    Ok(rewrite_by(alloc, page, &links)?.is_some())
}

/// Pages, and how long they are once they are rewritten.
const LENGTHS: [(&[u8], usize); 3] = [(b"<p>", 3), (b"<a href=/1>", 65), (b"<a href=/1>x", 66)];

#[test]
fn no_page_passes_its_limit(rt: HostRuntime) -> Result<(), Fail> {
    for (page, len) in LENGTHS {
        assert!(rt; fits(rt.alloc(), page, len)?, "{page:?}");
        assert!(rt; len > 0 && !fits(rt.alloc(), page, len - 1)?, "{page:?}");
    }
    Ok(())
}
