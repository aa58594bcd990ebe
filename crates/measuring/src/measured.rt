//! The time that a loop took.
use crate::stopped::Stopped;
use std::io::Print;
use std::rt::Clock;
use std::time::Instant;

/// A loop whose time is being taken.
#[derive(Drop)]
pub struct Measured {
    start: Instant,
}

impl Measured {
    /// The time runs from here.
    pub fn start(clock: &impl Clock) -> Result<Measured, Stopped> {
        Ok(Measured {
            start: Instant::now(clock)?,
        })
    }

    /// How many nanoseconds went by.
    pub fn nanos(&self, clock: &impl Clock) -> Result<u64, Stopped> {
        let elapsed = self.start.elapsed(clock)?.as_nanos();
        Ok(u64::try_from(elapsed).unwrap_or(u64::MAX))
    }

    /// Prints the mean time of an item, and gives it.
    pub fn print<R: Clock + Print>(&self, rt: &R, what: &str, items: u64) -> Result<u64, Stopped> {
        let mean = self.nanos(rt)?.checked_div(items).unwrap_or(0);
        println!(rt; "{what}: {mean} ns each, {items} of them")?;
        Ok(mean)
    }
}

/// Prints the mean time of an item, and how many times as long it is as a plain loop over the same bytes.
pub fn print_beside<R: Print>(
    rt: &R,
    what: &str,
    items: u64,
    nanos: u64,
    plain: u64,
) -> Result<(), Stopped> {
    let mean = nanos.checked_div(items).unwrap_or(0);
    let tenths = nanos.saturating_mul(10).checked_div(plain).unwrap_or(0);
    println!(rt;
        "{what}: {mean} ns each, {items} of them; {}.{} times the plain loop",
        tenths / 10,
        tenths % 10
    )?;
    Ok(())
}

/// Prints how long a loop took in hundredths of another one.
pub fn print_share<R: Print>(rt: &R, what: &str, nanos: u64, of: u64) -> Result<(), Stopped> {
    let share = nanos.saturating_mul(100).checked_div(of).unwrap_or(0);
    println!(rt; "{what}: {share}%")?;
    Ok(())
}
