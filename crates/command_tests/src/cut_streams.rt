//! Streams of commands, cut in many ways.
use crate::commands::{COMMANDS, with_end};
use crate::search_keys::{KEYS, search};
use crate::shown_commands::{pieces_text, units_text};
use imap_grammar::{Feed, units_of_pieces};
use std::alloc::{AllocError, Global};
use std::test::Fail;
use test_tables::{Row, rows};

// A stream and its units, as `shown_commands` shows them, with ` ..` behind them where it ends within a command.
const STREAMS: &str = r#"
# where a stream ends: between two commands or within one
\e => \e
a =>  ..
a NOOP\r =>  ..
a NOOP\r\n => a Noop
a NOOP\r\n\r => a Noop ..
a NOOP\r\n\r\n => a Noop; Bad * 1
a NOOP\r\nb => a Noop ..
\n =>  ..
a NOOP\n =>  ..
a NOOP\n\r\n => Bad a 7
a SELECT {5}\r =>  ..
a SELECT {5}\r\n => Announce ..
a SELECT {5}\r\nINBO => Announce ..
a SELECT {5}\r\nINBOX => Announce ..
a SELECT {5}\r\nINBOX\r => Announce ..
a SELECT {5}\r\nINBOX\r\n => Announce; a Select "INBOX"
a SELECT {0}\r\n => Announce ..
a SELECT {0}\r\n\r\n => Announce; a Select ""
a FROB {3}\r\n => Announce ..
+ {3}\r\n\r\n\r => Announce ..
+ {3}\r\n\r\n\r\r\n => Announce; Bad * 1
a SELECT {16777216}\r\n => Announce ..
a SELECT {0016777216}\r\n => Announce ..
a APPEND {1}\r\nx {16777215}\r\n => Announce; Announce ..
a SELECT {99999999999}\r\n => Bad a 6
# what a literal holds ends no line and announces nothing
a SELECT {2}\r\n\r\n\r\nb NOOP\r\n => Announce; a Select "\r\n"; b Noop
a SELECT {8}\r\nb NOOP\r\n\r\nc NOOP\r\n => Announce; a Select "b NOOP\r\n"; c Noop
a SELECT {5}\r\n{3}\r\n\r\nb NOOP\r\n => Announce; a Select "{3}\r\n"; b Noop
# what is no literal
a SELECT {99999999999}\r\nb NOOP\r\n => Bad a 6; b Noop
a SELECT { 5}\r\nb NOOP\r\n => Bad a 6; b Noop
a SELECT {5+}\r\nb NOOP\r\n => Bad a 6; b Noop
a SELECT {5}\nb NOOP\r\nc NOOP\r\n => Bad a 6; c Noop
a SELECT {5}\rb NOOP\r\nc NOOP\r\n => Bad a 6; c Noop
a SELECT {5}\r\r\nb NOOP\r\n => Bad a 6; b Noop
# literals that are too large, alone and together
a SELECT {16777217}\r\nb NOOP\r\n => Large a; b Noop
a SELECT {9999999999}\r\nb NOOP\r\n => Large a; b Noop
a APPEND {1}\r\nx {16777216}\r\nb NOOP\r\n => Announce; Large a; b Noop
a APPEND {1}\r\nb {9999999999}\r\nb NOOP\r\n => Announce; Large a; b Noop
a FROB ({16777217}\r\n => Large a
a SELECT "{16777217}\r\n => Large a
a \0{16777217}\r\n => Large a
a X {1}\r\n\0 {16777217}\r\n => Announce; Large a
a {16777217}\r\n => Large a
\(64:a\) {16777217}\r\n => Large \(64:a\)
# with no tag
{16777217}\r\nb NOOP\r\n => Large *; b Noop
 {16777217}\r\n => Large *
a{16777217}\r\n => Large *
a+ SELECT {16777217}\r\n => Large *
a\0 SELECT {16777217}\r\n => Large *
\(65:a\) {16777217}\r\n => Large *
{1}\r\na {16777216}\r\n => Announce; Large *
# a NUL in a line and in a literal
a SELECT \0\r\nb NOOP\r\n => Bad a 8; b Noop
a SELECT {1}\r\n\0\r\nb NOOP\r\n => Announce; Bad a 8; b Noop
a LIST {0}\r\n {2}\r\n*\0\r\nb NOOP\r\n => Announce; Announce; Bad a 8; b Noop
a LIST {0}\r\n\0{2}\r\n**\r\nb NOOP\r\n => Announce; Announce; Bad a 8; b Noop
"#;

// Rows of longer streams are cut at some places only.
const SHORT: usize = 300;

// A row's stream cut in two at each place, and in single bytes.
fn assert_cuts(alloc: Global, row: &Row, stream: &[u8]) -> Result<(), Fail> {
    for at in 0..stream.len() {
        let (front, behind) = stream.split_at(at);
        let found = pieces_text(alloc, &[front, behind])?;
        row.agrees(found.as_slice())?;
    }
    let single_bytes = chunks(alloc, stream, 1)?;
    let found = pieces_text(alloc, single_bytes.as_slice())?;
    row.agrees(found.as_slice())?;
    Ok(())
}

#[test]
fn streams_are_the_same_however_they_are_cut(rt: HostRuntime) -> Result<(), Fail> {
    for row in &rows(rt.alloc(), STREAMS)? {
        let found = pieces_text(rt.alloc(), &[row.text.as_slice()])?;
        row.agrees(found.as_slice())?;
        assert_cuts(rt.alloc(), row, row.text.as_slice())?;
    }
    Ok(())
}

#[test]
fn commands_are_the_same_however_they_are_cut(rt: HostRuntime) -> Result<(), Fail> {
    for row in &rows(rt.alloc(), COMMANDS)? {
        let stream = with_end(rt.alloc(), row.text.as_slice())?;
        if stream.len() <= SHORT {
            assert_cuts(rt.alloc(), row, stream.as_slice())?;
        }
    }
    Ok(())
}

#[test]
fn searches_are_the_same_however_they_are_cut(rt: HostRuntime) -> Result<(), Fail> {
    for row in &rows(rt.alloc(), KEYS)? {
        let stream = search(rt.alloc(), row.text.as_slice())?;
        if stream.len() <= SHORT {
            assert_cuts(rt.alloc(), row, stream.as_slice())?;
        }
    }
    Ok(())
}

// Whether a stream that lacks its last byte ends within a command, and then, with that byte, between two.
fn rests_at_its_end(alloc: Global, stream: &[u8]) -> Result<bool, AllocError> {
    let (front, last) = stream.split_at(stream.len().saturating_sub(1));
    let mut feed = Feed::new(alloc);
    let mut units = Vec::new(alloc);
    let at_first = feed.at_rest();
    feed.take(front, &mut units)?;
    let before = feed.at_rest();
    feed.take(last, &mut units)?;
    Ok(at_first && !before && feed.at_rest())
}

#[test]
fn a_command_ends_with_its_last_byte(rt: HostRuntime) -> Result<(), Fail> {
    for row in &rows(rt.alloc(), COMMANDS)? {
        let stream = with_end(rt.alloc(), row.text.as_slice())?;
        assert!(rt;
            rests_at_its_end(rt.alloc(), stream.as_slice())?,
            "line {}",
            row.line
        );
    }
    Ok(())
}

#[test]
fn commands_are_the_units_of_their_pieces(rt: HostRuntime) -> Result<(), Fail> {
    for row in &rows(rt.alloc(), COMMANDS)? {
        let mut pieces = Vec::new(rt.alloc());
        pieces.push(Vec::from_slice(rt.alloc(), row.text.as_slice())?)?;
        pieces.push(Vec::from_slice(rt.alloc(), b"\r\n")?)?;
        let units = units_of_pieces(rt.alloc(), pieces.as_slice())?;
        row.agrees(units_text(rt.alloc(), units.as_slice())?.as_slice())?;
    }
    Ok(())
}

// A stream in pieces of so many bytes.
fn chunks(alloc: Global, stream: &[u8], width: usize) -> Result<Vec<&[u8]>, AllocError> {
    let mut pieces = Vec::new(alloc);
    let mut rest = stream;
    for _ in 0..stream.len() {
        let (piece, behind) = rest.split_at(width.min(rest.len()));
        pieces.push(piece)?;
        rest = behind;
        if rest.is_empty() {
            break;
        }
    }
    Ok(pieces)
}

// The same of longer streams, of which the lines of a command have 65,536 bytes at most.
const LONG: &str = r#"
# lines of 65,536 bytes and of one more: `a SELECT ` has 9, `a RENAME {1}` has 12
a SELECT \(65527:x\)\r\n => a Select "\(65527:x\)"
a SELECT \(65528:x\)\r\nb NOOP\r\n => Bad a 2; b Noop
a SELECT "\(65525:x\)"\r\nb NOOP\r\n => a Select "\(65525:x\)"; b Noop
a NOOP\(65530: \)\r\nb NOOP\r\n => Bad a 7; b Noop
a NOOP\(65531: \)\r\nb NOOP\r\n => Bad a 2; b Noop
a \(200000:x\)\r\nb NOOP\r\n => Bad a 2; b Noop
\(65536:x\)\r\nb NOOP\r\n => Bad * 1; b Noop
\(65537:x\)\r\nb NOOP\r\n => Bad * 2; b Noop
+ \(65535:x\)\r\nb NOOP\r\n => Bad * 2; b Noop
a FROB \0\(65529:x\)\r\nb NOOP\r\n => Bad a 2; b Noop
a FROB \0\(65528:x\)\r\nb NOOP\r\n => Bad a 8; b Noop
a\(65535:\n\)\r\nb NOOP\r\n => Bad * 1; b Noop
a \(65535:\r\)\r\nb NOOP\r\n => Bad a 2; b Noop
# with a literal between
a RENAME {1}\r\nx \(65523:y\)\r\nb NOOP\r\n => Announce; a Rename "x" "\(65523:y\)"; b Noop
a RENAME {1}\r\nx \(65524:y\)\r\nb NOOP\r\n => Announce; Bad a 2; b Noop
a RENAME \(30000:x\) {40000}\r\n\(40000:y\)\r\nb NOOP\r\n => Announce; a Rename "\(30000:x\)" "\(40000:y\)"; b Noop
a RENAME {70000}\r\n\(70000:x\) \(65519:y\)\r\nb NOOP\r\n => Announce; a Rename "\(70000:x\)" "\(65519:y\)"; b Noop
a RENAME {70000}\r\n\(70000:x\) \(65520:y\)\r\nb NOOP\r\n => Announce; Bad a 2; b Noop
# a line that ends in the mark of a literal: it announces nothing where it is too long
a SELECT \(65524:x\){5}\r\nhello\r\nb NOOP\r\n => Announce; Bad a 7; b Noop
a SELECT \(65525:x\){5}\r\nb NOOP\r\n => Bad a 2; b Noop
a SELECT \(65523:x\) {5}\r\nhello\r\nb NOOP\r\n => Announce; Bad a 7; b Noop
a RENAME {1}\r\nx \(65521:y\){5}\r\nb NOOP\r\n => Announce; Bad a 2; b Noop
a \(65525:x\){99999999}\r\nb NOOP\r\n => Bad a 2; b Noop
a \(65524:x\){99999999}\r\nb NOOP\r\n => Large a; b Noop
# a literal that fills its command's lines, and one byte more behind it
a SELECT\(65525: \){3}\r\nxyz\r\nb NOOP\r\n => Announce; Bad a 6; b Noop
a SELECT\(65525: \){3}\r\nxyz \r\nb NOOP\r\n => Announce; Bad a 2; b Noop
# many literals without a byte
a \(20000:{0}\r\n\)\r\nb NOOP\r\n => \(20000:Announce; \)Bad a 3; b Noop
a LIST \(20000:{0}\r\n\)\r\nb NOOP\r\n => \(20000:Announce; \)Bad a 6; b Noop
a FETCH 1 BODY[HEADER.FIELDS ({0}\r\n\(15999: {0}\r\n\))]\r\nb NOOP\r\n => \(16000:Announce; \)a Fetch 1:1 [Part(Fields\(16000: ""\))]; b Noop
"#;

// The ten places around an offset, as far as they stand in a stream.
fn add_places(places: &mut Vec<usize>, offset: usize, length: usize) -> Result<(), AllocError> {
    for place in offset.saturating_sub(4)..offset.saturating_add(6) {
        if place < length {
            places.push(place)?;
        }
    }
    Ok(())
}

// The places around the first line end and the last three, where also literals begin and end, and around the limit of lines.
fn places(alloc: Global, stream: &[u8]) -> Result<Vec<usize>, AllocError> {
    let mut ends = Vec::new(alloc);
    for (at, byte) in stream.iter().enumerate() {
        if *byte == b'\n' {
            ends.push(at)?;
        }
    }
    let mut places = Vec::new(alloc);
    add_places(&mut places, 65_536, stream.len())?;
    for (number, end) in ends.iter().enumerate() {
        if number == 0 || number + 3 >= ends.len() {
            add_places(&mut places, *end, stream.len())?;
        }
    }
    Ok(places)
}

// A row's stream in pieces of these widths.
fn assert_widths(alloc: Global, row: &Row, widths: &[usize]) -> Result<(), Fail> {
    for width in widths {
        let pieces = chunks(alloc, row.text.as_slice(), *width)?;
        let found = pieces_text(alloc, pieces.as_slice())?;
        row.agrees(found.as_slice())?;
    }
    Ok(())
}

#[test]
fn long_streams_are_the_same_however_they_are_cut(rt: HostRuntime) -> Result<(), Fail> {
    for row in &rows(rt.alloc(), LONG)? {
        let stream = row.text.as_slice();
        for at in places(rt.alloc(), stream)? {
            let (front, behind) = stream.split_at(at.min(stream.len()));
            let found = pieces_text(rt.alloc(), &[front, behind])?;
            row.agrees(found.as_slice())?;
        }
        assert_widths(rt.alloc(), row, &[1_000, 65_536, 65_537, stream.len()])?;
    }
    Ok(())
}

// The same of streams of 16 MiB, which the literals of a command have at most.
const HUGE: &str = r#"
a SELECT {16777216}\r\n\(1048576:xxxxxxxxxxxxxxxx\)\r\nb NOOP\r\n => Announce; a Select "\(1048576:xxxxxxxxxxxxxxxx\)"; b Noop
a APPEND {1}\r\nx {16777215}\r\n\(1048575:\r\n\r\n\r\n\r\n\r\n\r\n\r\n\r\n\)yyyyyyyyyyyyyyy\r\nb NOOP\r\n => Announce; Announce; a Append "x" () "\(1048575:\r\n\r\n\r\n\r\n\r\n\r\n\r\n\r\n\)yyyyyyyyyyyyyyy"; b Noop
a APPEND x {16777216}\r\n\(1048575:zzzzzzzzzzzzzzzz\)zzzzzzzzzzzzzzz\0\r\nb NOOP\r\n => Announce; Bad a 8; b Noop
a \(1048576:xxxxxxxxxxxxxxxx\)\r\nb NOOP\r\n => Bad a 2; b Noop
"#;

#[test]
fn huge_streams_are_the_same_in_pieces(rt: HostRuntime) -> Result<(), Fail> {
    for row in &rows(rt.alloc(), HUGE)? {
        assert_widths(rt.alloc(), row, &[65_536, row.text.len()])?;
    }
    Ok(())
}
