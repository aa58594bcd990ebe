//! Tests of `vault`: passes beside each other, in two threads and as shelves. No case can say it: a case has one thread.
#![tactic(auto)]

#[cfg(test)]
mod answers;
#[cfg(test)]
mod passes;
#[cfg(test)]
mod seats;
#[cfg(test)]
mod shelves;
#[cfg(test)]
mod turns;
#[cfg(test)]
mod waiting;
