//! Names interned, held and dropped.
ghost use Rattle.std.specs.Prelude.{◌≡◌};
ghost use Rattle.symbol_table.specs.Table.{total};

use name_map::HashKey;
use std::alloc::Global;
use std::process::Abort;
use std::test::Fail;
use symbol_table::SymbolTable;

fn draw(rt: &impl Abort, alloc: Global, table: &mut SymbolTable) -> Result<(), Fail>
    requires { total table.old ≡ 0 }
{
    let first = table.intern(alloc, b"a.b")?;
    assert_eq!(rt; first.symbols(), [1, 2].as_slice());
    let second = table.intern(alloc, b"b.c")?;
    assert_eq!(rt; second.symbols(), [2, 3].as_slice());
    assert_eq!(rt; table.numbers_in_use(), 3);
    table.drop_name(&first);
    assert_eq!(rt; table.numbers_in_use(), 2);
    let third = table.intern(alloc, b"d")?;
    assert_eq!(rt; third.symbols(), [1].as_slice());
    Ok(())
}

#[test]
fn draws_a_free_number_again(rt: HostRuntime) -> Result<(), Fail> {
    let mut table = SymbolTable::with_key(rt.alloc(), HashKey::of(7));
    let drawn = draw(&rt, rt.alloc(), &mut table);
    drop(table);
    drawn
}

fn keep(rt: &impl Abort, alloc: Global, table: &mut SymbolTable) -> Result<(), Fail>
    requires { total table.old ≡ 0 }
{
    let name = table.intern(alloc, b"b.c")?;
    table.hold(&name);
    table.drop_name(&name);
    let text = table.text_of(alloc, &name)?;
    assert_eq!(rt; text.bytes(), b"b.c".as_slice());
    table.drop_name(&name);
    Ok(())
}

#[test]
fn keeps_a_held_name(rt: HostRuntime) -> Result<(), Fail> {
    let mut table = SymbolTable::new(rt.alloc());
    let kept = keep(&rt, rt.alloc(), &mut table);
    assert_eq!(rt; table.numbers_in_use(), 0);
    drop(table);
    kept
}
