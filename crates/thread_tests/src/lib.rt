//! Tests of what threads share: each module tries one crate, and `fake_book` is the book that the lock's tests lock.
#![tactic(auto)]

#[cfg(test)]
mod counters;
#[cfg(test)]
mod fake_book;
#[cfg(test)]
mod gauges;
#[cfg(test)]
mod locked_books;
#[cfg(test)]
mod locks;
#[cfg(test)]
mod names;
#[cfg(test)]
mod turns;
