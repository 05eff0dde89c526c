//! The slots of a table, and the index of its tokens.
ghost use Rattle.std.specs.Prelude.{◌≡◌, ℕ, ◌+◌, ◌-◌, ◌<◌, ◌≤◌, ◌^◌, ◌==◌, ◌++◌, ◌∷◌, [], OnOk, OnErr, Some, None};
ghost use Rattle.std.specs.Prelude.{length, slice_get, nat_eq, vec_len, IsTrue};
ghost use Rattle.std.specs.Vec.{vec_capacity};
ghost use Rattle.indexmap.specs.IndexMap.{get, Updates, IsUnchanged};
ghost use Rattle.std.specs.Cmp.Lexicographic.{pointwise};
ghost use Rattle.symbol_table.specs.declared.slots.Slot.{Slot as TheSlot};
ghost use Rattle.symbol_table.specs.Slots.{Changed, IsListed};

use name_map::NameMap;
use stat_defs::{NoMemory, Txt};

/// A number's token with its uses. Number `n` has slot `n - 1`, and a slot without uses is free.
#[derive(Drop)]
pub struct Slot {
    pub token: Txt,
    pub uses: u32,
}

/// Puts an item behind the last, where room was made before.
pub fn put_last<T: Drop>(items: &mut Vec<T>, item: T)
    requires { vec_len items.old < vec_capacity items.old }
    ensures items { items.new.items ≡ items.old.items ++ item ∷ [] }
    ensures len { vec_len items.new ≡ vec_len items.old + 1 }
    ensures capacity { vec_capacity items.old ≤ vec_capacity items.new }
{
    let pushed = items.push(item);
    prove!(pushed.is_ok());
}

/// The number of a token in use.
pub fn number_of(index: &NameMap<Txt, u32>, token: &Txt) -> Option<u32>
    ensures { result ≡ get (pointwise nat_eq) index.now token.now }
{
    index.get(token).copied()
}

/// Lists a token under its number.
pub fn list_token(index: &mut NameMap<Txt, u32>, token: Txt, n: u32) -> Result<(), NoMemory>
    ensures ok { OnOk result (Updates (pointwise nat_eq) index.old index.new token (Some n)) }
    ensures err { OnErr result (IsUnchanged index.old index.new) }
{
    index.insert(token, n)?;
    Ok(())
}

/// Takes the token of a slot out of the index.
pub fn unlist_token(index: &mut NameMap<Txt, u32>, slots: &[Slot], at: usize)
    requires { at < length slots.now }
    ensures { (slot : TheSlot) → slice_get slots.now at ≡ Some slot
        → Updates (pointwise nat_eq) index.old index.new slot.token None }
{
    let slot = &slots[at];
    let _ = index.swap_remove(&slot.token);
}

/// The first place from `from` on whose slot is free, or the end.
pub fn next_free(slots: &[Slot], from: usize) -> usize
    requires { from ≤ length slots.now }
    ensures from { from ≤ result }
    ensures within { result ≤ length slots.now }
    ensures used { (i : ℕ) → from ≤ i → i < result → (slot : TheSlot) × (slice_get slots.now i ≡ Some slot)
        × (0 < slot.uses) }
    ensures free { result < length slots.now → (slot : TheSlot) × (slice_get slots.now result ≡ Some slot)
        × (slot.uses ≡ 0) }
{
    let mut at = from;
    while at < slots.len() {
        if slots[at].uses == 0 {
            break;
        }
        at += 1;
    }
    at
}

/// Writes a slot over the one at a place, or behind the last.
pub fn write_slot(slots: &mut Vec<Slot>, at: usize, slot: Slot)
    requires within { at ≤ length slots.old.items }
    requires room { vec_len slots.old < vec_capacity slots.old }
    ensures { Changed slots.old.items slots.new.items at slot }
{
    if at < slots.len() {
        slots[at] = slot;
    } else {
        put_last(slots, slot);
    }
}

/// One use more at a place.
pub fn add_use(slots: &mut Vec<Slot>, at: usize)
    requires within { at < length slots.old.items }
    requires room { (slot : TheSlot) → slice_get slots.old.items at ≡ Some slot → slot.uses + 1 < 2 ^ 32 }
    ensures { (slot : TheSlot) → slice_get slots.old.items at ≡ Some slot
        → Changed slots.old.items slots.new.items at (record slot { uses = slot.uses + 1 }) }
{
    let slot = &mut slots[at];
    slot.uses += 1;
}

/// One use less at a place, and whether none is left.
pub fn drop_use(slots: &mut Vec<Slot>, at: usize) -> bool
    requires within { at < length slots.old.items }
    requires some { (slot : TheSlot) → slice_get slots.old.items at ≡ Some slot → 0 < slot.uses }
    ensures changed { (slot : TheSlot) → slice_get slots.old.items at ≡ Some slot
        → Changed slots.old.items slots.new.items at (record slot { uses = slot.uses - 1 }) }
    ensures last { (slot : TheSlot) → slice_get slots.old.items at ≡ Some slot → result ≡ (slot.uses == 1) }
{
    let slot = &mut slots[at];
    slot.uses -= 1;
    slot.uses == 0
}

/// Whether a number is in use and has this token.
pub fn has_token(slots: &[Slot], n: u32, token: &[u8]) -> bool
    ensures { IsTrue result → IsListed slots.now n token.now }
{
    if n == 0 {
        return false;
    }
    match slots.get(n as usize - 1) {
        Some(slot) => slot.uses > 0 && slot.token.bytes() == token,
        None => false,
    }
}

/// The token of a slot.
pub fn token_at(slots: &[Slot], at: usize) -> &[u8]
    requires { at < length slots.now }
    ensures { (slot : TheSlot) → slice_get slots.now at ≡ Some slot → result.now ≡ slot.token }
{
    let slot = &slots[at];
    slot.token.bytes()
}
