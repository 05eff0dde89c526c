//! Tests of the bins and of the texts: each module tries one crate, and `views` makes what the
//! texts are written of.
#![tactic(auto)]

#[cfg(test)]
mod admin;
#[cfg(test)]
mod bins;
#[cfg(test)]
mod merged_values;
#[cfg(test)]
mod numbers;
#[cfg(test)]
mod prometheus;
#[cfg(test)]
mod statsd;
#[cfg(test)]
mod views;
