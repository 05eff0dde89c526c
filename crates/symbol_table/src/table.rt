//! The symbol table.
ghost use Rattle.std.specs.Prelude.{◌≡◌, ℕ, ◌+◌, ◌<◌, ◌≤◌, map as list_map, All, length, IfOk, OnOk, OnErr, vec_len};
ghost use Rattle.std.specs.FinMap as map;
ghost use Rattle.std.specs.Vec.{vec_capacity};
ghost use Rattle.stat_defs.specs.Names.{IsFullName, tokens};
ghost use Rattle.symbol_table.specs.Drawing.{Draws};
ghost use Rattle.symbol_table.specs.Table.{Holds, uses_at, times, InUseAll, token_in, total, text_in, counted};
ghost use Rattle.symbol_table.specs.Table.{counted_all, counted_again, counted_again_all, uncounted, uncounted_all};
ghost use Rattle.symbol_table.specs.Table.{IsTable, Interns};

use crate::recent::Recent;
use crate::slots::{
    Slot, add_use, drop_use, has_token, list_token, next_free, number_of, put_last, token_at,
    unlist_token, write_slot,
};
use name_map::{HashKey, NameMap, name_map};
use stat_defs::{NoMemory, Numbers, Txt};
use stat_name::StatName;
use std::alloc::Global;
use std::marker::Model;

/// The uses of all tokens together stay below this number.
pub const MAX_USES: usize = 16_777_216;

const _: () = prove!(MAX_USES == 16_777_216);

/// The tokens of names in use. Contracts see a table as the finite map from each number in use to its token and the
/// count of its uses.
#[derive(Drop)]
pub struct SymbolTable {
    slots: Vec<Slot>,
    index: NameMap<Txt, u32>,
    /// All slots below this place are in use.
    free_from: usize,
    in_use: u32,
    recent: Recent,
}

impl Model for SymbolTable {
    ghost use Rattle.std.specs.Coded.{coded_ℕ, coded×, coded_list};
    ghost use Rattle.std.specs.FinMap as map;
    ghost use Rattle.symbol_table.specs.Table.{Table};

    ghost Value = { Table };

    ghost coded = { map.code coded_ℕ (coded× (coded_list coded_ℕ) coded_ℕ) };

    ghost use Rattle.symbol_table.specs.Kept.{Kept, shown};

    ghost view = { shown };

    ghost invariant = { Kept };
}

impl SymbolTable {
    /// A table without tokens, hashed under the fixed key.
    pub fn new(alloc: Global) -> SymbolTable
        ensures empty { result ≡ map.empty }
        ensures total { total result ≡ 0 }
        ensures table { IsTable result }
    {
        SymbolTable::with_key(alloc, HashKey::fixed())
    }

    /// The same under this key.
    pub fn with_key(alloc: Global, key: HashKey) -> SymbolTable
        ensures empty { result ≡ map.empty }
        ensures total { total result ≡ 0 }
        ensures table { IsTable result }
    {
        SymbolTable {
            slots: Vec::new(alloc),
            index: name_map(alloc, key),
            free_from: 0,
            in_use: 0,
            recent: Recent::new(),
        }
    }

    /// How many numbers are in use.
    pub fn numbers_in_use(&self) -> u32
        ensures { result ≡ map.len self.now }
    {
        self.in_use
    }

    /// A law: every table keeps to `IsTable`.
    #[inline(always)]
    pub fn is_table(&self)
        ensures { IsTable self.now }
    {
        // The invariant holds where a field is read.
        let _in_use = self.in_use;
    }

    /// Counts one use of each token of a full name, from left to right, and gives the name as their numbers. A token in
    /// use keeps its number, and any other gets the lowest free one.
    pub fn intern(&mut self, alloc: Global, name: &[u8]) -> Result<StatName, NoMemory>
        requires name { IsFullName name.now }
        requires room { total self.old + length (tokens name.now) < MAX_USES }
        ensures interned { IfOk result (Interns self.old (tokens name.now) self.new) }
        ensures uses { IfOk result (λ numbers. (n : ℕ) → uses_at self.new n ≡ uses_at self.old n + times n numbers) }
        ensures text { IfOk result (λ numbers. text_in self.new numbers ≡ name.now) }
        ensures total { OnOk result (total self.new ≡ total self.old + length (tokens name.now)) }
        ensures table { OnOk result (IsTable self.new) }
        ensures err { OnErr result (self.new ≡ self.old) }
    {
        self.is_table();
        let parts = tokens_of(alloc, name)?;
        let drawn = self.intern_all(alloc, &parts)?;
        let numbers = self.share_or_drop(alloc, &drawn)?;
        self.is_table();
        Ok(StatName::of(numbers))
    }

    /// Counts each number of a name once more.
    pub fn hold(&mut self, name: &StatName)
        requires used { InUseAll self.old name.now }
        requires room { total self.old + length name.now < MAX_USES }
        ensures held { self.new ≡ counted_again_all self.old name.now }
        ensures uses { (n : ℕ) → uses_at self.new n ≡ uses_at self.old n + times n name.now }
        ensures total { total self.new ≡ total self.old + length name.now }
    {
        let held = name.symbols();
        for n in held {
            self.count_again(*n);
        }
    }

    /// Takes one use of each number of a name away. A number without uses is free.
    pub fn drop_name(&mut self, name: &StatName)
        requires { (n : ℕ) → times n name.now ≤ uses_at self.old n }
        ensures dropped { self.new ≡ uncounted_all self.old name.now }
        ensures uses { (n : ℕ) → uses_at self.new n + times n name.now ≡ uses_at self.old n }
        ensures total { total self.new + length name.now ≡ total self.old }
        ensures table { IsTable self.new }
    {
        self.drop_numbers(name.symbols());
    }

    /// Takes one use of each of these numbers away, as [`SymbolTable::drop_name`] does.
    pub fn drop_numbers(&mut self, numbers: &[u32])
        requires { (n : ℕ) → times n numbers.now ≤ uses_at self.old n }
        ensures dropped { self.new ≡ uncounted_all self.old numbers.now }
        ensures uses { (n : ℕ) → uses_at self.new n + times n numbers.now ≡ uses_at self.old n }
        ensures total { total self.new + length numbers.now ≡ total self.old }
        ensures table { IsTable self.new }
    {
        for n in numbers {
            self.uncount(*n);
        }
        self.is_table();
    }

    /// The tokens of a name, with dots between them.
    pub fn text_of(&self, alloc: Global, name: &StatName) -> Result<Txt, NoMemory>
        requires { InUseAll self.now name.now }
        ensures { IfOk result (λ text. text ≡ text_in self.now name.now) }
    {
        let Some((first, rest)) = name.symbols().split_first() else {
            return Txt::of(alloc, b"");
        };
        let mut text = self.token_of(*first).to_vec(alloc)?;
        for n in rest {
            text.push(b'.')?;
            text.extend_from_slice(self.token_of(*n))?;
        }
        Txt::of_vec(text)
    }
}

impl SymbolTable {
    /// Counts the tokens one after another and returns their numbers. Where one can't be counted, those before it are
    /// taken back.
    fn intern_all(&mut self, alloc: Global, parts: &[&[u8]]) -> Result<Vec<u32>, NoMemory>
        requires { total self.old + length parts.now < MAX_USES }
        ensures interned { IfOk result (λ numbers.
            Interns self.old (list_map (λ x. x.now) parts.now) self.new numbers.items) }
        ensures from_one { IfOk result (λ numbers. All (λ n. 0 < n) numbers.items) }
        ensures total { OnOk result (total self.new ≡ total self.old + length parts.now) }
        ensures err { OnErr result (self.new ≡ self.old) }
    {
        self.is_table();
        let mut numbers = Vec::with_capacity(alloc, parts.len())?;
        for part in parts {
            match self.count_token(alloc, *part) {
                Ok(n) => put_last(&mut numbers, n),
                Err(e) => {
                    self.drop_numbers(&numbers);
                    return Err(e);
                }
            }
        }
        Ok(numbers)
    }

    /// The numbers as a name shares them. Where there is no memory, one use of each is taken away.
    fn share_or_drop(&mut self, alloc: Global, numbers: &[u32]) -> Result<Numbers, NoMemory>
        requires { (n : ℕ) → times n numbers.now ≤ uses_at self.old n }
        ensures shared { IfOk result (λ shared. shared ≡ numbers.now) }
        ensures kept { OnOk result (self.new ≡ self.old) }
        ensures dropped { OnErr result (self.new ≡ uncounted_all self.old numbers.now) }
        ensures table { OnErr result (IsTable self.new) }
    {
        match shared(alloc, numbers) {
            Ok(numbers) => Ok(numbers),
            Err(fault) => {
                self.drop_numbers(numbers);
                Err(fault)
            }
        }
    }

    /// One use more of a token, whose number is looked up only where it was not counted lately.
    fn count_token(&mut self, alloc: Global, token: &[u8]) -> Result<u32, NoMemory>
        requires { total self.old + 1 < MAX_USES }
        ensures drawn { IfOk result (λ n. Draws (Holds self.old) token.now n) }
        ensures from_one { IfOk result (λ n. 0 < n) }
        ensures counted { IfOk result (λ n. self.new ≡ counted self.old token.now n) }
        ensures total { OnOk result (total self.new ≡ total self.old + 1) }
        ensures err { OnErr result (self.new ≡ self.old) }
    {
        let last = self.recent.number_of(token);
        if has_token(&self.slots, last, token) {
            self.count_again(last);
            return Ok(last);
        }
        let n = self.count_listed(alloc, token)?;
        self.recent.note(token, n);
        Ok(n)
    }

    /// One use more of a token, whose number is looked up.
    fn count_listed(&mut self, alloc: Global, token: &[u8]) -> Result<u32, NoMemory>
        requires { total self.old + 1 < MAX_USES }
        ensures drawn { IfOk result (λ n. Draws (Holds self.old) token.now n) }
        ensures from_one { IfOk result (λ n. 0 < n) }
        ensures counted { IfOk result (λ n. self.new ≡ counted self.old token.now n) }
        ensures total { OnOk result (total self.new ≡ total self.old + 1) }
        ensures err { OnErr result (self.new ≡ self.old) }
    {
        let key = Txt::of(alloc, token)?;
        if let Some(n) = number_of(&self.index, &key) {
            self.count_again(n);
            return Ok(n);
        }
        self.add_token(alloc, key)
    }

    /// The first use of a token.
    fn add_token(&mut self, alloc: Global, token: Txt) -> Result<u32, NoMemory>
        requires new { (n : ℕ) → Holds self.old token n → ⊥ }
        requires room { total self.old + 1 < MAX_USES }
        ensures drawn { IfOk result (λ n. Draws (Holds self.old) token n) }
        ensures from_one { IfOk result (λ n. 0 < n) }
        ensures counted { IfOk result (λ n. self.new ≡ counted self.old token n) }
        ensures total { OnOk result (total self.new ≡ total self.old + 1) }
        ensures err { OnErr result (self.new ≡ self.old) }
    {
        let text = Txt::of(alloc, token.bytes())?;
        let at = next_free(&self.slots, self.free_from);
        let n = at as u32 + 1;
        self.slots.reserve(1)?;
        list_token(&mut self.index, token, n)?;
        let slot = Slot {
            token: text,
            uses: 1,
        };
        write_slot(&mut self.slots, at, slot);
        self.free_from = at + 1;
        self.in_use += 1;
        Ok(n)
    }

    /// One use more of a number in use.
    fn count_again(&mut self, n: u32)
        requires used { 0 < uses_at self.old n }
        requires room { total self.old + 1 < MAX_USES }
        ensures counted { self.new ≡ counted_again self.old n }
        ensures total { total self.new ≡ total self.old + 1 }
    {
        add_use(&mut self.slots, n as usize - 1);
    }

    /// One use less of a number in use.
    fn uncount(&mut self, n: u32)
        requires { 0 < uses_at self.old n }
        ensures uncounted { self.new ≡ uncounted self.old n }
        ensures total { total self.new + 1 ≡ total self.old }
    {
        let free_from = self.free_from;
        let at = n as usize - 1;
        if drop_use(&mut self.slots, at) {
            unlist_token(&mut self.index, &self.slots, at);
            self.free_from = free_from.min(at);
            self.in_use -= 1;
        }
    }

    /// The token of a number in use.
    fn token_of(&self, n: u32) -> &[u8]
        requires { 0 < uses_at self.now n }
        ensures { result.now ≡ token_in self.now n }
    {
        let slots = &self.slots;
        token_at(slots, n as usize - 1)
    }
}

fn shared(alloc: Global, numbers: &[u32]) -> Result<Numbers, NoMemory>
    ensures { IfOk result (λ shared. shared ≡ numbers.now) }
{
    Numbers::of(numbers.to_vec(alloc)?)
}

/// A name cut at its dots.
fn tokens_of<'a>(alloc: Global, name: &'a [u8]) -> Result<Vec<&'a [u8]>, NoMemory>
    ensures { IfOk result (λ v. list_map (λ x. x.now) v.items ≡ tokens name.now) }
{
    Ok(name.split(|b| *b == b'.').collect(alloc)?)
}
