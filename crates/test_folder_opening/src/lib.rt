//! Tests of how the program's disk opens its folder, over a folder of records: in which order, whom it refuses, and what it makes that is missing there.
//! No case can say it: a case plays over a disk in memory, which asks no file system.
#![tactic(auto)]

#[cfg(test)]
mod checked;
#[cfg(test)]
mod missing;
#[cfg(test)]
mod opening;
