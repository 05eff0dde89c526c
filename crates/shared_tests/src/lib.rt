//! Tests of a store that threads share, on one thread: `rows` is a table of calls of its parties in many orders, which
//! one interpreter runs.
#![tactic(auto)]

#[cfg(test)]
mod holding;
#[cfg(test)]
mod opening;
mod parties;
#[cfg(test)]
mod rounds;
#[cfg(test)]
mod rows;
#[cfg(test)]
mod scripts;
#[cfg(test)]
mod texts;
#[cfg(test)]
mod working;
