//! The rule of a gauge bank's words, and what each kind of step on them tells.
ghost use Rattle.metric_words.specs.Gauges.{Gauged, gauge_view, Added, Subtracted, SetTo, Read};

use crate::gauge_view::{GaugeKey, GaugeView};
use atomic_table::{Play, TableRule};

pub struct Gauging;

impl TableRule<(), GaugeView, GaugeKey> for Gauging {
    ghost holds = { Gauged };

    ghost first = { gauge_view };
}

pub(crate) struct Adding;

impl Play<(), GaugeView> for Adding {
    ghost then = { Added };
}

pub(crate) struct Subtracting;

impl Play<(), GaugeView> for Subtracting {
    ghost then = { Subtracted };
}

pub(crate) struct Setting;

impl Play<(), GaugeView> for Setting {
    ghost then = { SetTo };
}

pub(crate) struct Reading;

impl Play<(), GaugeView> for Reading {
    ghost then = { Read };
}
