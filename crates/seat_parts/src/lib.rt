//! Views that are lists of parts, one part for each seat that a table of `atomic_table` was made with.
//!
//! A rule over such views speaks of its parts alone: of sums over all parts of all views, and of what each part fits.
//! A split and a join move parts from view to view, so they keep every such sum and every such fact.
#![tactic(auto)]

use atomic_table::{Join, Split};
use std::collections::LinkedList;

/// What a seat knows: its own part, and after it those of the seats that it took in. No value of this type is made.
pub struct Parts<P> {
    pub parts: LinkedList<P>,
}

/// Cuts the first part off a view, for a seat of its own.
pub struct Deal;

impl<P> Split<Parts<P>> for Deal {
    ghost use Rattle.seat_parts.specs.Parts.{dealt, undealt};

    ghost left = { undealt };

    ghost right = { dealt };
}

/// Puts the parts of another view behind those of a view.
pub struct Merge;

impl<P> Join<Parts<P>> for Merge {
    ghost use Rattle.seat_parts.specs.Parts.{joined, spent};

    ghost both = { joined };

    ghost spent = { spent };
}
