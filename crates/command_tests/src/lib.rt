//! Tests of the commands that start no thread: what is written and said, the statuses, and the limits.
#![tactic(auto)]

#[cfg(test)]
mod calls;
#[cfg(test)]
mod cuts;
#[cfg(test)]
mod examples;
#[cfg(test)]
mod faults;
#[cfg(test)]
mod limits;
#[cfg(test)]
mod reports;
#[cfg(test)]
mod rows;
