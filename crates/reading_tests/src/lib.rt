//! Tests of what reads streams and event lines: each module tries one crate, but for `late_pulls`, which reads
//! bootstraps and files of a shelf whose sources count their pulls.
#![tactic(auto)]

#[cfg(test)]
mod event_lines;
#[cfg(test)]
mod late_pulls;
#[cfg(test)]
mod metered;
#[cfg(test)]
mod streams;
