//! Tests of the disk in the folder `archive` over the system's files, and of the system's calls that it makes.
//! No case can say it: a case has its folder in memory, and no other process.
#![tactic(auto)]

#[cfg(test)]
mod checked;
#[cfg(test)]
mod opening;
#[cfg(test)]
mod real_folder;
#[cfg(test)]
mod system_files;
