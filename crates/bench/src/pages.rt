//! Pages: what it costs to lead the links of one to the archive.
use crate::copies::{print_rate, time_of_copy};
use capture::{Memory, Site, Text};
use html_rewrite::rewrite;
use measuring::{Measured, NOON, Stopped};
use std::alloc::Global;
use std::io::Print;
use std::rt::Clock;

/// How many links the page has, one in each 200 bytes.
const LINKS: u32 = 5_000;

/// What stands behind each link.
const BEHIND: &[u8; 184] = &[b'x'; 184];

/// How often the page is rewritten and copied.
const TIMES: u32 = 20;

/// How many links to a folder further up a page has that was captured under a long address, and how often it is rewritten.
const LINKS_UP: usize = 8_000;

const TIMES_UP: u32 = 10;

/// The name of the folder in that address.
const FOLDER: &[u8; 60_000] = &[b'y'; 60_000];

pub fn measure<R: Clock + Print>(rt: &R, alloc: Global) -> Result<(), Stopped> {
    let site = site_of(alloc)?;
    let page = page_of(alloc)?;
    measure_page(rt, alloc, page.as_slice(), &site)?;
    measure_links_up(rt, alloc, &site)
}

/// Rewrites the page and copies it.
fn measure_page<R: Clock + Print>(
    rt: &R,
    alloc: Global,
    page: &[u8],
    site: &Site,
) -> Result<(), Stopped> {
    let rewritten = rewritten(rt, alloc, page, site)?;
    let copied = time_of_copy(rt, alloc, "the same page copied", page, TIMES)?;
    print_rate(rt, page.len(), rewritten, copied)
}

/// The nanoseconds that it takes to rewrite the page at this site.
fn rewritten<R: Clock + Print>(
    rt: &R,
    alloc: Global,
    page: &[u8],
    site: &Site,
) -> Result<u64, Stopped> {
    let start = Measured::start(rt)?;
    for _ in 0..TIMES {
        rewrite(alloc, page, b"http://a.test/p", NOON, site)?;
    }
    start.print(
        rt,
        "a page of 1 MB with 5,000 links rewritten",
        u64::from(TIMES),
    )
}

/// Rewrites a page of 104,000 bytes, all of them links that keep nothing of the page's own long address.
fn measure_links_up<R: Clock + Print>(rt: &R, alloc: Global, site: &Site) -> Result<(), Stopped> {
    let page = "<a href=../x>".repeat(alloc, LINKS_UP)?;
    let base = long_address(alloc)?;
    let start = Measured::start(rt)?;
    for _ in 0..TIMES_UP {
        rewrite(alloc, page.as_bytes(), base.as_slice(), NOON, site)?;
    }
    start.print(
        rt,
        "a page of 8,000 links `../x` under an address of 60,000 bytes rewritten",
        u64::from(TIMES_UP),
    )?;
    Ok(())
}

/// The address of a page in a folder whose name is long.
fn long_address(alloc: Global) -> Result<Vec<u8>, Memory> {
    let mut address = Vec::new(alloc);
    address.extend_from_slice(b"http://a.test/")?;
    address.extend_from_slice(FOLDER)?;
    address.extend_from_slice(b"/p")?;
    Ok(address)
}

/// A page of 1,000,000 bytes.
fn page_of(alloc: Global) -> Result<Vec<u8>, Memory> {
    let mut page = Vec::new(alloc);
    for i in 0..LINKS {
        let link = format!(in alloc; "<a href=/p/{i:04}>")?;
        page.extend_from_slice(link.as_bytes())?;
        page.extend_from_slice(BEHIND)?;
    }
    Ok(page)
}

fn site_of(alloc: Global) -> Result<Site, Memory> {
    Ok(Site {
        base: Text::from_str(alloc, "http://localhost:8080")?,
        host: Text::from_str(alloc, "localhost")?,
        port: 8080,
    })
}
