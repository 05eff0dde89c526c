//! The rule of a counter bank's words, and what each kind of step on them tells.
ghost use Rattle.metric_words.specs.Counters.{Counted, bank_view, FirstAdded, SecondAdded, Latched, Loaded};

use crate::counter_view::{BankKey, CountView};
use atomic_table::{Play, TableRule};

pub struct Counting;

impl TableRule<(), CountView, BankKey> for Counting {
    ghost holds = { Counted };

    ghost first = { bank_view };
}

pub(crate) struct AddFirst;

impl Play<(), CountView> for AddFirst {
    ghost then = { FirstAdded };
}

pub(crate) struct AddSecond;

impl Play<(), CountView> for AddSecond {
    ghost then = { SecondAdded };
}

pub(crate) struct Latching;

impl Play<(), CountView> for Latching {
    ghost then = { Latched };
}

pub(crate) struct Loading;

impl Play<(), CountView> for Loading {
    ghost then = { Loaded };
}
