//! Tests of gates.
#![tactic(auto)]

#[cfg(test)]
mod gates;
