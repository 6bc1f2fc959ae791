//! Each line, and the number and the place of its refusal.
use lines::read_rule;
use logic::SymbolRow;
use std::test::Fail;

/// How many bytes a long line has.
const LONG: usize = 1_048_576;

/// The number and the place of the line's refusal, with no symbol counted; none where it is read.
fn refusal(line: &[u8]) -> Option<(u32, usize)> {
    let mut rows = [SymbolRow::default(); 4];
    let mut words = [0; 4];
    let mut symbols = 0;
    let fault = read_rule(line, &mut rows, &mut symbols, &mut words).err()?;
    Some((fault.number(), fault.place()))
}

/// The refusal of a line of this one byte: it ends early, begins with another token, or has a byte of no token.
fn alone(byte: u8) -> (u32, usize) {
    match byte {
        b'(' | b' ' => (2, 1),
        b')' | b'=' | b'_' | b'a'..=b'z' | b'0'..=b'9' => (3, 0),
        _ => (1, 0),
    }
}

#[test]
fn an_empty_line_ends_early(rt: HostRuntime) {
    assert_eq!(rt; refusal(b""), Some((2, 0)));
}

#[test]
fn every_byte_alone_is_refused(rt: HostRuntime) {
    for byte in 0..=255 {
        assert_eq!(rt; refusal(&[byte]), Some(alone(byte)));
    }
}

#[test]
fn a_megabyte_of_spaces_ends_early(rt: HostRuntime) -> Result<(), Fail> {
    let line = vec![in rt.alloc(); b' '; LONG]?;
    assert_eq!(rt; refusal(line.as_slice()), Some((2, LONG)));
    Ok(())
}

#[test]
fn a_megabyte_of_brackets_is_refused_at_the_second(rt: HostRuntime) -> Result<(), Fail> {
    let line = vec![in rt.alloc(); b'('; LONG]?;
    assert_eq!(rt; refusal(line.as_slice()), Some((3, 1)));
    Ok(())
}

#[test]
fn a_megabyte_of_nested_terms_is_refused_at_depth_33(rt: HostRuntime) -> Result<(), Fail> {
    let mut line = b"(rule 1 (or (p ".to_vec(rt.alloc())?;
    for _ in 0..LONG / 3 {
        line.extend_from_slice(b"(f ")?;
    }
    assert_eq!(rt; refusal(line.as_slice()), Some((6, 111)));
    Ok(())
}
