//! A pass over all cells.
ghost use Rattle.std.specs.Prelude.{◌≡◌, ◌⊎◌, ℕ, ◌≤◌, [], false, length, map, All, IfOk, OnOk, OnErr, vec_capacity};
ghost use Rattle.flush_cells.specs.Cells.{merged_count};
ghost use Rattle.turn_cell.specs.Tokens.{cell_id};
ghost use Rattle.flush_cells.specs.Cells.{cell_of, late_in, AreKept, IsNotHolding, is_holding_in};
ghost use Rattle.flush_cells.specs.Passes.{PassesEach};
ghost use Rattle.flush_cells.specs.Late.{or_late, pass_from};

use crate::one::pass_one;
use crate::tokens::FlushCell;
use merge_round::{Half, Parents};
use stat_defs::NoMemory;
use std::alloc::Global;
use std::mem::replace;
use turn_cell::TurnCell;

/// How a pass ended: each worker that was asked gave its half or left, or the least worker that did not, with the word
/// that was found.
#[derive(Clone, Copy, Debug, PartialEq, Eq)]
pub enum Pass {
    Done,
    Late(u32, u64),
}

// With one worker more.
fn with_late(pass: Pass, worker: u32, late: Option<u64>) -> Pass
    ensures { result ≡ or_late pass worker late }
{
    match (pass, late) {
        (Pass::Done, Some(word)) => Pass::Late(worker, word),
        _ => pass,
    }
}

// Looks at each cell once, in order, into a list that has room for the tokens.
fn pass_into(
    alloc: Global,
    cells: &[TurnCell<Half>],
    parents: &mut Parents,
    seats: Vec<FlushCell>,
    next: &mut Vec<FlushCell>,
) -> Pass
    requires cells { map cell_id cells.now ≡ map cell_of seats.items }
    requires kept { AreKept (merged_count parents.old) seats.items }
    requires room { (next.old.items ≡ []) × (length seats.items ≤ vec_capacity next.old) }
    ensures cells { map cell_of next.new.items ≡ map cell_of seats.items }
    ensures kept { AreKept (merged_count parents.new) next.new.items }
    ensures passes { PassesEach 1 parents.old seats.items parents.new next.new.items }
    ensures told { result ≡ pass_from 1 next.new.items }
{
    let mut pass = Pass::Done;
    for seat in seats {
        let cell = &cells[next.len()];
        let worker = next.len() as u32 + 1;
        let (looked, late) = pass_one(alloc, cell, worker, parents, seat);
        pass = with_late(pass, worker, late);
        next.push_reserved(looked);
    }
    pass
}

// Looks at each cell once, in order. After want of memory the halves that were taken and not merged are kept.
pub(crate) fn pass_each(
    alloc: Global,
    cells: &[TurnCell<Half>],
    parents: &mut Parents,
    seats: &mut Vec<FlushCell>,
) -> Result<Pass, NoMemory>
    requires cells { map cell_id cells.now ≡ map cell_of seats.old.items }
    requires kept { AreKept (merged_count parents.old) seats.old.items }
    ensures cells { map cell_of seats.new.items ≡ map cell_of seats.old.items }
    ensures kept { AreKept (merged_count parents.new) seats.new.items }
    ensures passes { IfOk result (λ pass. PassesEach 1 parents.old seats.old.items parents.new seats.new.items) }
    ensures told { IfOk result (λ pass. pass ≡ pass_from 1 seats.new.items) }
    ensures none_held { OnOk result (All IsNotHolding seats.new.items) }
    ensures err { OnErr result (((parents.new ≡ parents.old) × (seats.new.items ≡ seats.old.items))
        ⊎ PassesEach 1 parents.old seats.old.items parents.new seats.new.items) }
{
    let mut next = Vec::with_capacity(alloc, seats.len())?;
    let olds = replace(seats, Vec::new(alloc));
    let pass = pass_into(alloc, cells, parents, olds, &mut next);
    *seats = next;
    if is_short(seats) {
        return Err(NoMemory);
    }
    Ok(pass)
}

fn is_holding(seat: &FlushCell) -> bool
    ensures { result ≡ is_holding_in seat.now }
{
    match seat {
        FlushCell::Holding(_, _) => true,
        _ => false,
    }
}

// Whether a half was taken that could not be merged.
fn is_short(seats: &[FlushCell]) -> bool
    ensures { result ≡ false → All IsNotHolding seats.now }
{
    for seat in seats {
        if is_holding(seat) {
            return true;
        }
    }
    false
}
