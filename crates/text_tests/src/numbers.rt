use stats_io::MemSink;
use std::alloc::{AllocError, Global};
use std::test::Fail;
use text_parts::{PUSH_BYTES, push_full, put_halves, put_thousandths, put_twentieths};

fn line_of(alloc: Global, n: u64) -> Result<Vec<u8>, AllocError> {
    let mut text = Vec::new(alloc);
    put_halves(&mut text, n)?;
    text.push(b' ')?;
    put_twentieths(&mut text, u128::from(n))?;
    text.push(b' ')?;
    put_thousandths(&mut text, u128::from(n))?;
    Ok(text)
}

#[test]
fn decimals(rt: HostRuntime) -> Result<(), Fail> {
    for (n, line) in [
        (0, b"0 0 0".as_slice()),
        (1, b"0.5 0.05 0.001".as_slice()),
        (110, b"55 5.5 0.11".as_slice()),
        (102_009, b"51004.5 5100.45 102.009".as_slice()),
        (110_500, b"55250 5525 110.5".as_slice()),
    ] {
        assert_eq!(rt; line_of(rt.alloc(), n)?.as_slice(), line);
    }
    Ok(())
}

fn text_of(alloc: Global, count: usize) -> Result<Vec<u8>, AllocError> {
    vec![in alloc; b'a'; count]
}

#[test]
fn full_texts_are_pushed(rt: HostRuntime) -> Result<(), Fail> {
    let alloc = rt.alloc();
    let mut out = MemSink::new(alloc, PUSH_BYTES, PUSH_BYTES, Vec::new(alloc))?;
    let mut held = text_of(alloc, PUSH_BYTES - 1)?;
    assert_eq!(rt; push_full(&mut held, &mut out), Ok(()));
    assert_eq!(rt; (held.len(), out.bytes().len()), (PUSH_BYTES - 1, 0));
    held.push(b'\n')?;
    assert_eq!(rt; push_full(&mut held, &mut out), Ok(()));
    assert_eq!(rt; (held.len(), out.bytes().len()), (0, PUSH_BYTES));
    Ok(())
}
