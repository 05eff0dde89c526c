//! Stored names.
ghost use Rattle.std.specs.Prelude.{◌≡◌, ◌≤◌, ◌*◌, ◌++◌, length, IfOk, OnOk, OnErr};
ghost use Rattle.stat_name.specs.StoredName.{IsName, data_of, stored, Spells, Reads, BeginsAtMostOneName};
ghost use Rattle.stat_name.specs.StoredName.{IsNameReadAgain};

use crate::numbers::{MAX_SPELLING_BYTES, put_number, take_number};
use stat_defs::{NoMemory, Numbers};
use std::alloc::Global;
use std::marker::Model;

/// Maximum number of symbol numbers of a name, which has at least one.
pub const MAX_NUMBERS: usize = 512;

const _: () = prove!(MAX_NUMBERS == 512);

/// A metric's name as the symbol numbers of its tokens, from left to right. Contracts see it as their list.
#[derive(Drop, Debug)]
pub struct StatName {
    numbers: Numbers,
}

impl Model for StatName {
    ghost use Rattle.std.specs.Prelude.{List, ℕ};
    ghost use Rattle.std.specs.Coded.{coded_ℕ, coded_list};

    ghost Value = { List ℕ };

    ghost coded = { coded_list coded_ℕ };

    ghost use Rattle.stat_name.specs.StoredName.{IsName};

    ghost view = { λ name. name.numbers };

    ghost invariant = { λ name. IsName name.numbers };
}

impl StatName {
    /// The name of these numbers, without a copy.
    pub fn of(numbers: Numbers) -> StatName
        requires { IsName numbers }
        ensures { result ≡ numbers }
    {
        StatName { numbers }
    }

    /// The name whose stored form the bytes begin with, and the length of that form. There is at most one such name.
    pub fn read(alloc: Global, bytes: &[u8]) -> Result<Option<(StatName, usize)>, NoMemory>
        ensures { IfOk result (Reads bytes.now) }
    {
        let Some((len, start)) = take_number(bytes) else {
            return Ok(None);
        };
        let rest = &bytes[start..];
        let len = len as usize;
        if rest.len() < len {
            return Ok(None);
        }
        let Some(numbers) = numbers_of(alloc, &rest[..len])? else {
            return Ok(None);
        };
        Ok(Some((StatName::of(numbers), start + len)))
    }

    /// Appends the stored form: the byte count of the data as a number, and then the data, which are the spellings of
    /// the numbers.
    pub fn write(&self, alloc: Global, out: &mut Vec<u8>) -> Result<(), NoMemory>
        ensures ok { OnOk result (out.new.items ≡ out.old.items ++ stored self.now) }
        ensures err { OnErr result (out.new.items ≡ out.old.items) }
    {
        let data = data_of_numbers(alloc, self.symbols())?;
        let mut form = Vec::new(alloc);
        put_number(alloc, data.len() as u32, &mut form)?;
        form.extend_from_slice(&data)?;
        out.extend_from_slice(&form)?;
        Ok(())
    }

    /// The numbers, from left to right.
    pub fn symbols(&self) -> &[u32]
        ensures numbers { result.now ≡ self.now }
        ensures name { IsName self.now }
    {
        self.numbers.items()
    }

    /// The numbers, without a copy.
    pub fn into_numbers(self) -> Numbers
        ensures numbers { result ≡ self }
        ensures name { IsName self }
    {
        let StatName { numbers } = self;
        numbers
    }
}

/// The spellings of the numbers, one after the other.
fn data_of_numbers(alloc: Global, numbers: &[u32]) -> Result<Vec<u8>, NoMemory>
    ensures made { IfOk result (λ made. made.items ≡ data_of numbers.now) }
    ensures short { IfOk result (λ made. length made.items ≤ MAX_SPELLING_BYTES * length numbers.now) }
{
    let mut data = Vec::new(alloc);
    for n in numbers {
        put_number(alloc, *n, &mut data)?;
    }
    Ok(data)
}

/// The numbers that are spelled by exactly these bytes, where they may make a name.
fn numbers_of(alloc: Global, bytes: &[u8]) -> Result<Option<Numbers>, NoMemory>
    ensures { IfOk result (Spells bytes.now) }
{
    let mut numbers = Vec::new(alloc);
    let mut at = 0;
    while at < bytes.len() {
        let Some((n, len)) = take_number(&bytes[at..]) else {
            return Ok(None);
        };
        if n == 0 || numbers.len() == MAX_NUMBERS {
            return Ok(None);
        }
        numbers.push(n)?;
        at += len;
    }
    if numbers.is_empty() {
        return Ok(None);
    }
    Ok(Some(Numbers::of(numbers)?))
}

/// A law: no stored name is a prefix of another one.
pub fn stored_names_differ_at_once()
    ensures { BeginsAtMostOneName }
{}

/// A law: a name that was written is read again, whatever follows.
pub fn written_names_are_read_again()
    ensures { IsNameReadAgain }
{}
