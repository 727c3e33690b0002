//! Streams with their lines as RFC 3501 has them, cut in many ways.
use command_lines::{Feed, units_of_pieces};
use std::alloc::Global;
use std::test::Fail;
use test_tables::{Row, rows};

// A stream, and its lines, each with a semicolon behind it; `..` where it ends within one.
const CASES: &str = r#"
\e => \e
\n => ..
\r => ..
\r\n => ;
\n\r => ..
\n\r\n => \n;
\r\r\n => \r;
\r\n\n => ;..
\r\n\r => ;..
a\nb\rc\r\n => a\nb\rc;
a\r\n\r\n\nb\r\n => a;;\nb;
a1 NOOP\r\na2 LOGOUT\r\na3 => a1 NOOP;a2 LOGOUT;..
# of a line its first 65,536 bytes are kept
\(65534:x\)y\r\nnext\r\n => \(65534:x\)y;next;
\(65535:x\)y\r\nnext\r\n => \(65535:x\)y;next;
\(65536:x\)y\r\nnext\r\n => \(65536:x\);next;
\(65537:x\)y\r\nnext\r\n => \(65536:x\);next;
\(199999:x\)y\r\nnext\r\n => \(65536:x\);next;
"#;

// The lines of a stream that comes in pieces.
fn lines(alloc: Global, pieces: &[&[u8]]) -> Result<Vec<u8>, Fail> {
    let mut feed = Feed::new(alloc);
    let mut units = Vec::new(alloc);
    for piece in pieces {
        feed.take(piece, &mut units)?;
    }
    let mut shown = Vec::new(alloc);
    for unit in units.iter() {
        shown.extend_from_slice(unit.as_slice())?;
        shown.push(b';')?;
    }
    if !feed.at_rest() {
        shown.extend_from_slice(b"..")?;
    }
    Ok(shown)
}

// Short streams are cut at each place, long ones around their first line end.
fn agrees_cut(alloc: Global, row: &Row) -> Result<(), Fail> {
    let stream = row.text.as_slice();
    let first = stream
        .len()
        .saturating_sub(if stream.len() > 100 { 9 } else { stream.len() });
    let mut single_bytes = Vec::new(alloc);
    for at in first..stream.len() {
        let (one, other) = stream.split_at_checked(at).unwrap_or((stream, &[]));
        row.agrees(lines(alloc, &[one, other])?.as_slice())?;
        if at == first {
            single_bytes.push(one)?;
        }
        single_bytes.push(other.get(..1).unwrap_or(&[]))?;
    }
    row.agrees(lines(alloc, single_bytes.as_slice())?.as_slice())
}

#[test]
fn lines_are_the_same_however_the_stream_is_cut(rt: HostRuntime) -> Result<(), Fail> {
    for row in rows(rt.alloc(), CASES)?.iter() {
        agrees_cut(rt.alloc(), row)?;
    }
    Ok(())
}

#[test]
fn pieces_have_the_lines_of_the_joined_bytes(rt: HostRuntime) -> Result<(), Fail> {
    let mut pieces = Vec::new(rt.alloc());
    for piece in [b"a1 NO".as_slice(), b"OP\r", b"", b"\na2"] {
        pieces.push(Vec::from_slice(rt.alloc(), piece)?)?;
    }
    let units = units_of_pieces(rt.alloc(), pieces.as_slice())?;
    assert_eq!(rt; units.len(), 1);
    assert_eq!(rt; units[0].as_slice(), b"a1 NOOP".as_slice());
    Ok(())
}
