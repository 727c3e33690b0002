//! The parts of messages, as trees.
use mime_parts::{Inner, Part, structure};
use std::alloc::{AllocError, Global};
use std::test::Fail;
use test_tables::rows;

fn show_number(shown: &mut Vec<u8>, alloc: Global, number: usize) -> Result<(), AllocError> {
    let digits = format!(in alloc; "{number}")?;
    shown.extend_from_slice(digits.as_bytes())
}

#[cycle(shown)]
fn show_all(shown: &mut Vec<u8>, alloc: Global, parts: &[Part]) -> Result<(), AllocError> {
    for part in parts {
        show(shown, alloc, part)?;
    }
    Ok(())
}

// `TYPE/SUBTYPE from body to lines`, and in parentheses what it holds.
#[cycle(shown)]
fn show(shown: &mut Vec<u8>, alloc: Global, part: &Part) -> Result<(), AllocError> {
    shown.push(b'(')?;
    shown.extend_from_slice(part.content.kind.as_slice())?;
    shown.push(b'/')?;
    shown.extend_from_slice(part.content.subkind.as_slice())?;
    for param in part.content.params.as_slice() {
        shown.push(b';')?;
        shown.extend_from_slice(param.0.as_slice())?;
        shown.push(b'=')?;
        shown.extend_from_slice(param.1.as_slice())?;
    }
    for number in [
        part.head.from,
        part.body.from,
        part.body.to,
        part.lines as usize,
    ] {
        shown.push(b' ')?;
        show_number(shown, alloc, number)?;
    }
    match &part.inner {
        Inner::Leaf => {}
        Inner::Parts(parts) => show_all(shown, alloc, parts.as_slice())?,
        Inner::Message(message) => show(shown, alloc, message.get())?,
    }
    shown.push(b')')?;
    Ok(())
}

// A text, and the tree of its parts.
const TREES: &str = r#"
\e => (TEXT/PLAIN;CHARSET=US-ASCII 0 0 0 0)
A: b\n\nx\ny => (TEXT/PLAIN;CHARSET=US-ASCII 0 6 9 2)
Content-Type: text/html; charset="a\\"b" (c(d)) ; x = y; z\n\n => (text/html;charset=a"b;x=y 0 59 59 0)
Content-Type: text\n\n => (TEXT/PLAIN;CHARSET=US-ASCII 0 20 20 0)
# a multipart of two parts, with preamble and epilogue
Content-Type: multipart/mixed; boundary=b\n\np\n--b\n\nx\r\n--b \t\nA: 1\n\ny\n--b--\ne\n--b\nz\n => (multipart/mixed;boundary=b 0 43 81 12(TEXT/PLAIN;CHARSET=US-ASCII 49 50 51 1)(TEXT/PLAIN;CHARSET=US-ASCII 59 65 66 1))
# two delimiters in a row, and no close
Content-Type: multipart/mixed; boundary=b\n\n--b\n--b\n\nx\n => (multipart/mixed;boundary=b 0 43 54 4(TEXT/PLAIN;CHARSET=US-ASCII 47 47 47 0)(TEXT/PLAIN;CHARSET=US-ASCII 51 52 54 1))
# the line end before a delimiter is the part's empty line
Content-Type: multipart/mixed; boundary=b\n\n--b\nA: 1\n\r\r\n--b-- => (multipart/mixed;boundary=b 0 43 60 4(TEXT/PLAIN;CHARSET=US-ASCII 47 52 52 0))
# no boundary, an empty one, no part, a close first
Content-Type: multipart/mixed\n\n--b\n => (APPLICATION/OCTET-STREAM 0 31 35 1)
Content-Type: multipart/mixed; boundary=""\n\n--\n => (APPLICATION/OCTET-STREAM 0 44 47 1)
Content-Type: multipart/mixed; boundary=b\n\n--bc\n => (APPLICATION/OCTET-STREAM 0 43 48 1)
Content-Type: multipart/mixed; boundary=b\n\n--b--\n--b\n => (APPLICATION/OCTET-STREAM 0 43 53 2)
# an outer delimiter ends an inner multipart; the inner boundary is a beginning of it
Content-Type: multipart/mixed; boundary=bb\n\n--bb\nContent-Type: multipart/mixed; boundary=b\n\n--b\n\nx\n--bb\n\ny\n--bb--\n => (multipart/mixed;boundary=bb 0 44 114 10(multipart/mixed;boundary=b 49 92 98 3(TEXT/PLAIN;CHARSET=US-ASCII 96 97 98 1))(TEXT/PLAIN;CHARSET=US-ASCII 104 105 106 1))
# a message in a message
Content-Type: message/rfc822\n\nA: 1\n\nx => (message/rfc822 0 30 37 3(TEXT/PLAIN;CHARSET=US-ASCII 30 36 37 1))
# a digest
Content-Type: multipart/Digest; boundary=b\n\n--b\n\nA: 1\n\nx\n--b-- => (multipart/Digest;boundary=b 0 44 62 6(MESSAGE/RFC822 48 49 56 3(TEXT/PLAIN;CHARSET=US-ASCII 49 55 56 1)))
Content-Type: multipart/digest; boundary=b\n\n--b\nContent-Type: x\n\nx\n--b-- => (multipart/digest;boundary=b 0 44 72 5(TEXT/PLAIN;CHARSET=US-ASCII 48 65 66 1))
Content-Type: (a)TEXT(b)/\r\n\tX;n=(c)"v w";\n\nx => (TEXT/X;n=v w 0 43 44 1)
# a header alone, and a body alone
A: b\n\n => (TEXT/PLAIN;CHARSET=US-ASCII 0 6 6 0)
\nx\n => (TEXT/PLAIN;CHARSET=US-ASCII 0 1 3 1)
# a part without an empty line is all header
Content-Type: multipart/mixed; boundary=b\n\n--b\nContent-Type: a/b\n--b--\n => (multipart/mixed;boundary=b 0 43 71 3(a/b 47 64 64 0))
# a delimiter line that fits two open multiparts is one of the outer
Content-Type: multipart/mixed; boundary=b\n\n--b\nContent-Type: multipart/mixed; boundary=b\n\n--b\n\ny\n--b--\n => (multipart/mixed;boundary=b 0 43 103 7(APPLICATION/OCTET-STREAM 47 89 89 0)(TEXT/PLAIN;CHARSET=US-ASCII 94 95 96 1))
# a message in a message in a message
Content-Type: message/rfc822\n\nContent-Type: message/rfc822\n\n\nx => (message/rfc822 0 30 62 4(message/rfc822 30 60 62 2(TEXT/PLAIN;CHARSET=US-ASCII 60 61 62 1)))
"#;

// The parts of a text that isn't too long.
fn tree(alloc: Global, text: &[u8]) -> Result<Part, Fail> {
    if text.len() >= 1 << 32 {
        return Err(Fail::new("too long"));
    }
    Ok(structure(alloc, text)?)
}

#[test]
fn trees_of_texts(rt: HostRuntime) -> Result<(), Fail> {
    for row in &rows(rt.alloc(), TREES)? {
        let mut shown = Vec::new(rt.alloc());
        show(
            &mut shown,
            rt.alloc(),
            &tree(rt.alloc(), row.text.as_slice())?,
        )?;
        row.agrees(shown.as_slice())?;
    }
    Ok(())
}

// How many parts stand in one another, the first in each, and the innermost of them.
fn levels(part: &Part) -> u32 {
    match &part.inner {
        Inner::Leaf => 0,
        Inner::Parts(parts) => match parts.as_slice().first() {
            Some(first) => levels(first).saturating_add(1),
            None => 0,
        },
        Inner::Message(message) => levels(message.get()).saturating_add(1),
    }
}

// What the innermost part is, by its kind.
fn innermost(alloc: Global, part: &Part) -> Result<Vec<u8>, AllocError> {
    match &part.inner {
        Inner::Leaf => Vec::from_slice(alloc, part.content.kind.as_slice()),
        Inner::Parts(parts) => match parts.as_slice().first() {
            Some(first) => innermost(alloc, first),
            None => Ok(Vec::new(alloc)),
        },
        Inner::Message(message) => innermost(alloc, message.get()),
    }
}

// Messages in one another, so many of them around a text.
fn messages(alloc: Global, count: u32) -> Result<Vec<u8>, AllocError> {
    let mut text = Vec::new(alloc);
    for _ in 0..count {
        text.extend_from_slice(b"Content-Type: message/rfc822\n\n")?;
    }
    text.extend_from_slice(b"\nx\n")?;
    Ok(text)
}

// Multiparts in one another, each with a boundary of its own, so many of them around a text.
fn multiparts(alloc: Global, count: u32) -> Result<Vec<u8>, AllocError> {
    let mut text = Vec::new(alloc);
    for level in 0..count {
        text.extend_from_slice(b"Content-Type: multipart/mixed; boundary=b")?;
        show_number(&mut text, alloc, level as usize)?;
        text.extend_from_slice(b"\n\n--b")?;
        show_number(&mut text, alloc, level as usize)?;
        text.push(b'\n')?;
    }
    text.extend_from_slice(b"\nx\n")?;
    Ok(text)
}

// How many levels there are, how many are divided, and what stands innermost.
const LEVELS: [(u32, u32, &[u8]); 7] = [
    (0, 0, b"TEXT"),
    (1, 1, b"TEXT"),
    (49, 49, b"TEXT"),
    (50, 50, b"TEXT"),
    (51, 50, b"APPLICATION"),
    (60, 50, b"APPLICATION"),
    (5_000, 50, b"APPLICATION"),
];

#[test]
fn fifty_levels_are_divided(rt: HostRuntime) -> Result<(), Fail> {
    let alloc = rt.alloc();
    for (count, divided, kind) in LEVELS {
        for text in [messages(alloc, count)?, multiparts(alloc, count)?] {
            let part = tree(alloc, text.as_slice())?;
            assert_eq!(rt; levels(&part), divided, "of {count}");
            assert_eq!(rt; innermost(alloc, &part)?.as_slice(), kind, "of {count}");
        }
    }
    Ok(())
}

// How many parts a text is divided in, and what stands innermost in the first of them.
fn shape(alloc: Global, text: &[u8]) -> Result<Vec<u8>, Fail> {
    let part = tree(alloc, text)?;
    let count = match &part.inner {
        Inner::Parts(parts) => parts.as_slice().len(),
        Inner::Leaf | Inner::Message(_) => 0,
    };
    let mut shown = format!(in alloc; "{count} ")?.into_bytes();
    shown.extend_from_slice(innermost(alloc, &part)?.as_slice())?;
    Ok(shown)
}

// Long texts, how many parts they have, and what stands innermost in the first.
const LONG: &str = r#"
# comments 10,000 deep, closed and open
Content-Type: \(10000:(\)\(10000:)\)a/b\n\n => 0 a
Content-Type: \(10000:(\)\(9999:)\)a/b\n\n => 0 TEXT
# 100,000 fields, and as many parameters
\(100000:A: b\n\)Content-Type: a/b\n\n => 0 a
Content-Type: a/b\(100000:;c=d\)\n\n => 0 a
# lines that nearly are delimiters, and lines that are
Content-Type: multipart/mixed; boundary=b\n\n\(100000:--c\n\)--b\n\nx\n => 1 TEXT
Content-Type: multipart/mixed; boundary=b\n\n\(100000:--b-\n\) => 0 APPLICATION
Content-Type: multipart/mixed; boundary=b\n\n\(100000:--b\n\) => 100000 TEXT
"#;

#[test]
fn long_texts_are_read(rt: HostRuntime) -> Result<(), Fail> {
    for row in &rows(rt.alloc(), LONG)? {
        let found = shape(rt.alloc(), row.text.as_slice())?;
        row.agrees(found.as_slice())?;
    }
    Ok(())
}

// Lines that stand in the innermost of 50 multiparts: some that nearly are delimiters, and some that are empty.
const INNERMOST: &str = r#"
\(100000:--c\n\) => 1 TEXT
\(1048576:\n\) => 1 TEXT
"#;

#[test]
fn lines_below_fifty_levels_are_read(rt: HostRuntime) -> Result<(), Fail> {
    for row in &rows(rt.alloc(), INNERMOST)? {
        let mut text = multiparts(rt.alloc(), 50)?;
        text.extend_from_slice(row.text.as_slice())?;
        let found = shape(rt.alloc(), text.as_slice())?;
        row.agrees(found.as_slice())?;
    }
    Ok(())
}
