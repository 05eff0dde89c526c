//! Parts of which each match of a pattern has one.
ghost use Rattle.std.specs.Prelude.{◌≡◌, ◌⊎◌, IfOk, IfSome, map};
ghost use Rattle.regex_extract.specs.Needles.{needles_of};
ghost use Rattle.regex_hir.specs.Meaning.{meaning, cat_all, alt_all};
ghost use Rattle.tag_rules.specs.Starts.{Needs};

use regex_extract::{Needles, prefixes, suffixes};
use regex_hir::Hir;
use regex_literal::expected_count;
use std::alloc::{AllocError, Global};

/// Maximum number of strings of a set, since a name is looked through for each of them.
const MAX_NEEDED: usize = 500;

/// Levels of sequences in sequences whose edges are asked for.
const LEVELS: u32 = 2;

/// Nanoseconds in which 2^32 bytes are looked through for one string.
const LOOK: u64 = 1 << 32;

/// Nanoseconds that a search takes in a name that has one of the strings.
const SEARCH: u64 = 1000;

/// Byte strings of which each match contains one, if such are found: those at an edge of the whole, or those of a part.
/// What [`regex_extract::required`] tells is as good or better, but it looks at each run of parts, and so takes time in
/// the square of their number. For the same reason the edges of sequences in sequences are asked for in two levels alone.
pub(crate) fn needed_of(alloc: Global, hir: &Hir) -> Result<Option<Needles>, AllocError>
    ensures { IfOk result (λ found. IfSome found (λ needles. Needs (meaning hir.now) (needles_of needles))) }
{
    needed_in(alloc, LEVELS, hir)
}

// The same, with the edges of sequences in so many levels.
#[cycle(needed)]
fn needed_in(alloc: Global, levels: u32, hir: &Hir) -> Result<Option<Needles>, AllocError>
    ensures { IfOk result (λ found. IfSome found (λ needles. Needs (meaning hir.now) (needles_of needles))) }
{
    match hir {
        Hir::Capture { sub, .. } => needed_in(alloc, levels, sub),
        Hir::Concat(parts) => {
            let within = needed_of_parts(alloc, levels.saturating_sub(1), parts)?;
            Ok(cheaper(edge_in(alloc, levels, hir)?, within))
        }
        Hir::Alternation(branches) => needed_of_branches(alloc, levels, branches),
        _ => edge_of(alloc, hir),
    }
}

// Byte strings of which each match begins or ends with one, where there is a level left.
fn edge_in(alloc: Global, levels: u32, hir: &Hir) -> Result<Option<Needles>, AllocError>
    ensures { IfOk result (λ found. IfSome found (λ needles. Needs (meaning hir.now) (needles_of needles))) }
{
    if levels == 0 {
        return Ok(None);
    }
    edge_of(alloc, hir)
}

// Byte strings of which each match begins or ends with one.
fn edge_of(alloc: Global, hir: &Hir) -> Result<Option<Needles>, AllocError>
    ensures { IfOk result (λ found. IfSome found (λ needles. Needs (meaning hir.now) (needles_of needles))) }
{
    let first = prefixes(alloc, hir)?;
    let last = suffixes(alloc, hir)?;
    Ok(cheaper(first, last))
}

// The same of parts one after another, of which each match has all.
#[cycle(needed)]
fn needed_of_parts(alloc: Global, levels: u32, parts: &[Hir]) -> Result<Option<Needles>, AllocError>
    ensures { IfOk result (λ found. IfSome found
        (λ needles. Needs (cat_all (map meaning parts.now)) (needles_of needles))) }
{
    let mut found = None;
    for part in parts {
        found = cheaper(found, needed_in(alloc, levels, part)?);
    }
    Ok(found)
}

// The same of branches, of which each match has one.
#[cycle(needed)]
fn needed_of_branches(
    alloc: Global,
    levels: u32,
    branches: &[Hir],
) -> Result<Option<Needles>, AllocError>
    ensures { IfOk result (λ found. IfSome found
        (λ needles. Needs (alt_all (map meaning branches.now)) (needles_of needles))) }
{
    let mut all = Vec::new(alloc);
    for branch in branches {
        let Some(mut more) = needed_in(alloc, levels, branch)? else {
            return Ok(None);
        };
        all.append(&mut more)?;
        if all.len() > MAX_NEEDED {
            return Ok(None);
        }
    }
    Ok(Some(all))
}

// The one that costs less.
fn cheaper(found: Option<Needles>, more: Option<Needles>) -> Option<Needles>
    ensures { (result ≡ found) ⊎ (result ≡ more) }
{
    if cost(&more) < cost(&found) {
        more
    } else {
        found
    }
}

// What it costs to look for the strings: nanoseconds for 2^32 bytes of usual text.
fn cost(found: &Option<Needles>) -> u64 {
    let Some(needles) = found else {
        return u64::MAX;
    };
    let mut total: u64 = 0;
    for needle in needles {
        let searches = expected_count(needle).saturating_mul(SEARCH);
        total = total.saturating_add(LOOK).saturating_add(searches);
    }
    total
}
