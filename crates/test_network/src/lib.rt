//! Tests of connections over networks of records.
//! No case can say it: the objects of a case are in memory.
#![tactic(auto)]

#[cfg(test)]
mod accepting;
#[cfg(test)]
mod addresses;
#[cfg(test)]
mod checked;
#[cfg(test)]
mod places;
#[cfg(test)]
mod recorded_network;
#[cfg(test)]
mod streaming;
#[cfg(test)]
mod waiting;
