//! Tests of what several threads share: turns at a lock, links in a queue, and views of a list that is published. No case can say it: a
//! case has one thread.
#![tactic(auto)]

#[cfg(test)]
mod links;
#[cfg(test)]
mod turns;
#[cfg(test)]
mod views;
