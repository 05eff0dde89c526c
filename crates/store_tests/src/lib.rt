//! Tests of the store, of the replay of files, and of reports: each module tries one crate.
#![tactic(auto)]

#[cfg(test)]
mod files;
#[cfg(test)]
mod reports;
#[cfg(test)]
mod stores;
