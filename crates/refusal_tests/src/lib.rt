//! Tests of a store that goes on after want of memory and is closed. In those whose names begin with `goes_on` a refused
//! call is made once more, or a refused event is passed over; in the others want of memory is their end. With memory for
//! all they show what the store comes to; `bench/faults/refusals.py` runs them with each request for memory refused in
//! turn, and they come to the same, or to the same without that event.
#![tactic(auto)]

#[cfg(test)]
mod again;
#[cfg(test)]
mod closes;
#[cfg(test)]
mod closing;
#[cfg(test)]
mod goes_on;
#[cfg(test)]
mod opening;
mod parties;
#[cfg(test)]
mod row;
#[cfg(test)]
mod rows;
#[cfg(test)]
mod text;
