//! Tests of the program's disk over a folder of records: what it asks of the file system, in which order, and what a call that fails leaves.
//! No case can say it: a case plays over a disk in memory, which asks no file system.
#![tactic(auto)]

#[cfg(test)]
mod causes;
#[cfg(test)]
mod checked;
#[cfg(test)]
mod making;
#[cfg(test)]
mod open_files;
