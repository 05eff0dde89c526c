//! Numbers and names as bytes.

use stat_defs::Numbers;
use stat_name::{StatName, put_number, take_number};
use std::alloc::Global;
use std::process::Abort;
use std::test::Fail;

fn try_spells_numbers(rt: &impl Abort, alloc: Global) -> Result<(), Fail> {
    let rows: [(u32, &[u8]); 7] = [
        (0, &[0x00]),
        (1, &[0x01]),
        (127, &[0x7f]),
        (128, &[0x80, 0x01]),
        (300, &[0xac, 0x02]),
        (16384, &[0x80, 0x80, 0x01]),
        (4294967295, &[0xff, 0xff, 0xff, 0xff, 0x0f]),
    ];
    for (n, bytes) in rows {
        let mut out = Vec::new(alloc);
        put_number(alloc, n, &mut out)?;
        assert_eq!(rt; out.as_slice(), bytes, "put {n}");
        out.push(7)?;
        assert_eq!(rt; take_number(&out), Some((n, bytes.len())), "take {n}");
    }
    let none: [&[u8]; 4] = [&[], &[0x80], &[0x80, 0x00], &[0xff, 0xff, 0xff, 0xff, 0x1f]];
    for bytes in none {
        assert_eq!(rt; take_number(bytes), None, "{bytes:?}");
    }
    Ok(())
}

#[test]
fn spells_numbers(rt: HostRuntime) -> Result<(), Fail> {
    try_spells_numbers(&rt, rt.alloc())
}

// The name at the front of these bytes has these numbers, and takes so many bytes.
fn assert_read(
    rt: &impl Abort,
    alloc: Global,
    bytes: &[u8],
    numbers: &[u32],
    taken: usize,
) -> Result<(), Fail> {
    let read = StatName::read(alloc, bytes)?.ok_or("no name")?;
    assert_eq!(rt; read.0.symbols(), numbers, "{bytes:?}");
    assert_eq!(rt; read.1, taken, "{bytes:?}");
    Ok(())
}

fn assert_no_name(rt: &impl Abort, alloc: Global, bytes: &[u8]) -> Result<(), Fail> {
    assert!(rt; StatName::read(alloc, bytes)?.is_none(), "{bytes:?}");
    Ok(())
}

#[test]
fn reads_names(rt: HostRuntime) -> Result<(), Fail> {
    assert_read(&rt, rt.alloc(), &[1, 1], &[1], 2)?;
    assert_read(&rt, rt.alloc(), &[3, 1, 0xac, 0x02, 9], &[1, 300], 4)?;
    assert_read(&rt, rt.alloc(), &[2, 5, 5, 5], &[5, 5], 3)?;
    assert_no_name(&rt, rt.alloc(), &[])?;
    assert_no_name(&rt, rt.alloc(), &[0x00])?;
    assert_no_name(&rt, rt.alloc(), &[0x01, 0x00])?;
    assert_no_name(&rt, rt.alloc(), &[0x02, 0x01])?;
    assert_no_name(&rt, rt.alloc(), &[0x01, 0x80])
}

#[test]
fn stores_names(rt: HostRuntime) -> Result<(), Fail> {
    let name = StatName::of(Numbers::of([1, 300].to_vec(rt.alloc())?)?);
    let mut out = Vec::new(rt.alloc());
    name.write(rt.alloc(), &mut out)?;
    assert_eq!(rt; out.as_slice(), [3, 1, 0xac, 0x02].as_slice());
    Ok(())
}
