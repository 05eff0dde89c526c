//! Tests of bootstraps, of what is said of a faulty one, and of patterns.
#![tactic(auto)]

#[cfg(test)]
mod bootstrap_lines;
#[cfg(test)]
mod bootstraps;
#[cfg(test)]
mod patterns;
