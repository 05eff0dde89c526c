//! The seats of a gauge bank. Each is used by one party at a time, and has the list of its steps, which contracts alone
//! see.
ghost use Rattle.std.specs.Prelude.{◌≡◌, ◌<◌, length};

use crate::gauge_bank::GaugePlace;

/// A seat that makes any of the steps. It may take in other seats.
#[derive(Drop)]
pub struct GaugeSeat {
    pub(crate) seat: GaugePlace,
    ghost leads: { (0 < length seat.me.0.parts) × (length seat.me.1 ≡ 0) },
}

/// All seats of a bank: one for each worker, in the order of their numbers, one for the flusher, and one for the
/// reader.
#[derive(Drop)]
pub struct GaugeSeats {
    pub workers: Vec<GaugeSeat>,
    pub flusher: GaugeSeat,
    pub reader: GaugeSeat,
}
