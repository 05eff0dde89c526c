//! Tests of the book and of what it stands on: each module tries one crate.
#![tactic(auto)]

#[cfg(test)]
mod books;
#[cfg(test)]
mod caches;
#[cfg(test)]
mod ghosts;
#[cfg(test)]
mod spellings;
#[cfg(test)]
mod symbols;
