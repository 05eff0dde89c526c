//! Tests of events that are made of checked parts, and of what the faults of a store with pages say. The program
//! `page_example` tries the pages.
#![tactic(auto)]

#[cfg(test)]
mod events;
#[cfg(test)]
mod pages;
