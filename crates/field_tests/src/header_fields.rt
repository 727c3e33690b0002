//! Headers with their fields and bodies, and values on one line.
ghost use Rattle.std.specs.Prelude.{◌≡◌, ◌≤◌};
ghost use Rattle.head_fields.specs.Header.{body_start_of};

use head_fields::{
    Field, Fields, FoundBody, HeaderSearch, Span, Spans, body_start, fields, unfold,
};
use std::alloc::{AllocError, Global};
use std::test::Fail;
use test_tables::rows;

// A text, its fields as `name=value;`, and where its body begins.
const HEADERS: &str = r#"
\e =>  | 0
\n =>  | 1
\r\nSubject: no header\r\n =>  | 2
Subject: x\n\nbody => Subject= x; | 12
Subject: x\r\n\r\nbody => Subject= x; | 14
# folded, with both line ends
To: a,\r\n b,\n\tc\r\r\nCc: d\n\n => To= a,\r\n b,\n\tc;Cc= d; | 24
# a line of blanks alone goes on with the field
A: 1\r\n \t\r\nB: 2\r\n\r\n => A= 1\r\n \t;B= 2; | 18
# no empty line: all is header
A: 1\nB: 2 => A= 1;B= 2; | 9
A: 1\r => A= 1\r; | 5
# a line that is no field, and what would continue it
A: 1\nno colon\n more\nB: 2\n\n => A= 1;B= 2; | 26
 more\nA:1\n\n => A=1; | 11
# blanks before the colon
Subject : x\nTo \t: y\n\n => Subject= x;To= y; | 21
# no names
: 1\n : 2\nA B: 3\nC\x7f: 4\nD\xc3\xa9: 5\nE\x01: 6\n\n =>  | 36
# empty values, and one with colons
A:\nB:\r\nC: :d:\n\n => A=;B=;C= :d:; | 15
# the bytes at the ends of a name's range
!~"9: x\n\n => !~"9= x; | 9
# an empty line ends the header
A: 1\n\nB: 2\n\n => A= 1; | 6
"#;

// A value, and what it is on one line.
const VALUES: &str = r#"
\e => \e
 x => x
 \t \r\n\t => \e
a\r\n b\n\tc => a b\tc
a\r\r\n b => a b
# a CR that no line end has stays
a\rb => a\rb
a\r => a\r
a\r \n b => a\r  b
\t a b \t => a b
 \r\n \r\n x \r\n \e => x
a\r\n => a
\r\n\r\n => \e
"#;

fn part(text: &[u8], span: Span) -> &[u8] {
    text.get(span.from..span.to).unwrap_or(b"outside")
}

// The fields of a text in a row, each as `name=value;`, and where its body begins.
fn shown(alloc: Global, text: &[u8]) -> Result<Vec<u8>, AllocError> {
    let mut shown = Vec::new(alloc);
    for field in fields(alloc, text)? {
        shown.extend_from_slice(part(text, field.name))?;
        shown.extend_from_slice(b"=")?;
        shown.extend_from_slice(part(text, field.value))?;
        shown.extend_from_slice(b";")?;
    }
    let body = format!(in alloc; " | {}", body_start(text))?;
    shown.extend_from_slice(body.as_bytes())?;
    Ok(shown)
}

#[test]
fn fields_and_bodies_of_headers(rt: HostRuntime) -> Result<(), Fail> {
    for row in &rows(rt.alloc(), HEADERS)? {
        let found = shown(rt.alloc(), row.text.as_slice())?;
        row.agrees(found.as_slice())?;
    }
    Ok(())
}

// Where the body begins, by fronts that grow by so many bytes.
fn body_by_pieces(text: &[u8], width: usize) -> usize
    requires { 1 ≤ width }
    ensures { result ≡ body_start_of text.now }
{
    let mut search = HeaderSearch::begin();
    let mut end = 0;
    while end < text.len() {
        end = end.saturating_add(width).min(text.len());
        match search.find_body(&text[..end]) {
            FoundBody::At(at) => return at,
            FoundBody::Open(next) => search = next,
        }
    }
    match search.find_body(text) {
        FoundBody::At(at) => at,
        FoundBody::Open(_) => text.len(),
    }
}

#[test]
fn bodies_begin_there_in_pieces_of_each_width(rt: HostRuntime) -> Result<(), Fail> {
    for row in &rows(rt.alloc(), HEADERS)? {
        for width in 1..8 {
            let at = body_by_pieces(row.text.as_slice(), width);
            let shown = format!(in rt.alloc(); " | {at}")?;
            assert!(rt; row.expected.as_slice().ends_with(shown.as_bytes()));
        }
    }
    Ok(())
}

#[test]
fn spans_are_offsets_in_the_whole_text(rt: HostRuntime) -> Result<(), Fail> {
    let found = Fields::of(fields(rt.alloc(), b"A: 1\nno\nCc :\r\n d\n\n")?);
    let expected = [
        Field {
            name: Span { from: 0, to: 1 },
            value: Span { from: 2, to: 4 },
        },
        Field {
            name: Span { from: 8, to: 10 },
            value: Span { from: 12, to: 16 },
        },
    ];
    assert_eq!(rt; found.as_slice(), expected.as_slice());
    assert_eq!(rt; found.into_vec().as_slice(), expected.as_slice());
    Ok(())
}

#[test]
fn spans_stay_in_their_order(rt: HostRuntime) -> Result<(), Fail> {
    let expected = [Span { from: 3, to: 5 }, Span { from: 0, to: 0 }];
    let spans = Spans::of(expected.to_vec(rt.alloc())?);
    assert_eq!(rt; spans.as_slice(), expected.as_slice());
    assert_eq!(rt; spans.into_vec().as_slice(), expected.as_slice());
    Ok(())
}

#[test]
fn values_on_one_line(rt: HostRuntime) -> Result<(), Fail> {
    for row in &rows(rt.alloc(), VALUES)? {
        let found = unfold(rt.alloc(), row.text.as_slice())?;
        row.agrees(found.as_slice())?;
    }
    Ok(())
}

// As many empty lines as a message may have bytes: the first ends the header.
#[test]
fn a_long_text_of_empty_lines_has_no_field(rt: HostRuntime) -> Result<(), Fail> {
    let mut text = Vec::new(rt.alloc());
    text.resize(16 << 20, b'\n')?;
    assert!(rt; body_start(text.as_slice()) == 1);
    assert!(rt; fields(rt.alloc(), text.as_slice())?.is_empty());
    assert!(rt; unfold(rt.alloc(), text.as_slice())?.is_empty());
    Ok(())
}
