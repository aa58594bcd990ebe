//! Tests of the real objects but the folder, over the system's own, once each.
//! No case can say it: the objects of a case are in memory.
#![tactic(auto)]

#[cfg(test)]
mod checked;
#[cfg(test)]
mod clock;
#[cfg(test)]
mod listening;
#[cfg(test)]
mod loopback;
#[cfg(test)]
mod printing;
#[cfg(test)]
mod servers;
#[cfg(test)]
mod site;
#[cfg(test)]
mod sockets;
