//! Tests of `gated_file` and `warc_journal` over a disk whose failed calls act in part, and which counts what it is asked. No case can
//! say it: the disk of a case does a call whole or not at all.
#![tactic(auto)]

#[cfg(test)]
mod appends;
#[cfg(test)]
mod partial_disk;
#[cfg(test)]
mod steps;
