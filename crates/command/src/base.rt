//! The base of a site.
ghost use Rattle.std.specs.Prelude.{◌≡◌, ◌++◌, codes, string_bytes, IfOk, IsAscii, IsTrue};
ghost use Rattle.command.specs.Base as spec;
ghost use Rattle.command.specs.Base.{with_slash as base_with_slash};

use capture::{Memory, Site, Text};
use exchange::{HTTP_PORT, host_of};
use std::alloc::Global;
use url::{ParseError, Url};

/// The site of a base, which is an `http` URL with a host and perhaps a port alone, written as it is printed. Every other text has none.
pub fn site_of_base(alloc: Global, base: &str) -> Result<Option<Site>, Memory>
    ensures { IfOk result (λ site. site ≡ spec.site_of base.now) }
{
    let text = with_slash(alloc, base)?;
    let url = match Url::parse(alloc, text.as_str()) {
        Ok(url) => url,
        Err(ParseError::OutOfMemory | ParseError::Overflow) => return Err(Memory),
        Err(_) => return Ok(None),
    };
    if !is_base(&url, text.as_str()) {
        return Ok(None);
    }
    let site = site_of_url(alloc, base, &url)?;
    Ok(Some(site))
}

/// The base with the slash of an empty path.
fn with_slash(alloc: Global, base: &str) -> Result<String, Memory>
    ensures { IfOk result (λ text. string_bytes text ≡ base_with_slash base.now) }
{
    let mut text = String::from_str(alloc, base)?;
    text.push_str("/")?;
    Ok(text)
}

/// Whether the URL is an `http` one that has nothing but a host, perhaps a port, and the path `/`, and is printed so.
fn is_base(url: &Url, text: &str) -> bool
    ensures value { result ≡ spec.is_base url.now text.now }
    ensures ascii { IsTrue result → IsAscii text.now }
{
    if !is_bare(url) {
        return false;
    }
    url.scheme() == "http" && url.path() == "/" && url.as_str() == text
}

/// Whether the URL has no user name, no password, no query and no fragment.
fn is_bare(url: &Url) -> bool
    ensures { result ≡ spec.is_bare url.now }
{
    url.username().is_empty()
        && url.password().is_none()
        && url.query().is_none()
        && url.fragment().is_none()
}

/// The site with this base, which is the URL.
fn site_of_url(alloc: Global, base: &str, url: &Url) -> Result<Site, Memory>
    requires { IsAscii base.now }
    ensures { IfOk result (λ site. site ≡ spec.site_by base.now url.now) }
{
    let port = url.port().unwrap_or(HTTP_PORT);
    Ok(Site {
        base: Text::from_str(alloc, base)?,
        host: Text::from_str(alloc, host_of(url))?,
        port,
    })
}
