//! A test of the call `run` with connections that are served at once. No case can say it: a case has one thread.
#![tactic(auto)]

#[cfg(test)]
mod side_by_side;
