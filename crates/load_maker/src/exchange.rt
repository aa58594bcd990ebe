//! The parts of an exchange that its number tells.
ghost use Rattle.std.specs.Prelude.{◌≡◌, ◌++◌, OnOk};
ghost use Rattle.load_maker.specs.Load as load;

use capture::{Memory, put_all, put_number};

/// How many hosts there are.
const HOSTS: u32 = 16;

/// When the first exchange is, in milliseconds since 1970: 14 November 2023, 22:13:20.
const BEGIN: u64 = 1_700_000_000_000;

/// When an exchange is, in milliseconds since 1970. Exchanges are a second apart.
pub fn date(number: u32) -> u64
    ensures { result ≡ load.date number }
{
    BEGIN + 1_000 * u64::from(number)
}

/// Puts the host of an exchange.
#[tactic(auto, unfolding(crate::specs::Load::host_text))]
pub(crate) fn put_host(out: &mut Vec<u8>, number: u32) -> Result<(), Memory>
    ensures { OnOk result (out.new.items ≡ out.old.items ++ load.host_text number) }
{
    put_all(out, b"h")?;
    put_number(out, u64::from(number % HOSTS))?;
    put_all(out, b".test")
}

/// The exchange whose payload this one has: itself, or for each fourth the third before it.
pub(crate) fn page_of(number: u32) -> u32
    ensures { result ≡ load.page_of number }
{
    if number % 4 == 3 { number - 3 } else { number }
}
