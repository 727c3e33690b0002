//! The forms of small texts.
use std::alloc::{AllocError, Global};
use std::test::Fail;
use test_tables::rows;
use text_forms::{
    clean_nul, drop_reserved, end_header, end_last, keep_lines, lines_form, mmdf_form, quote_from,
    quote_mmdf, store_lf, unix_form,
};

// A text, the same kept, and the same stored.
const LINE_ENDS: &str = r#"
a\r\r\nb\rc\n => a\r\nb\rc\r\n | a\nb\rc\n
a\nb\r => a\r\nb\r | a\nb\r
\r\n\r\r\n\n => \r\n\r\n\r\n | \n\n\n
a => a | a
\n => \r\n | \n
# lines that stay, before, between and behind others
a\r\nb\r\nc\nd\r\n\re\r\r\nf\r\n => a\r\nb\r\nc\r\nd\r\n\re\r\nf\r\n | a\nb\nc\nd\n\re\nf\n
a\nb\nc => a\r\nb\r\nc | a\nb\nc
\e =>  | \e
"#;

// Two texts, as a cell has them.
fn both(alloc: Global, one: &[u8], other: &[u8]) -> Result<Vec<u8>, AllocError> {
    let mut shown = Vec::from_slice(alloc, one)?;
    shown.extend_from_slice(b" | ")?;
    shown.extend_from_slice(other)?;
    Ok(shown)
}

#[test]
fn returns_before_lf_are_its_line_end(rt: HostRuntime) -> Result<(), Fail> {
    for row in &rows(rt.alloc(), LINE_ENDS)? {
        let kept = keep_lines(rt.alloc(), row.text.as_slice())?;
        let formed = lines_form(rt.alloc(), row.text.as_slice())?;
        assert!(rt; formed.as_slice() == kept.as_slice());
        let stored = store_lf(rt.alloc(), row.text.as_slice())?;
        let found = both(rt.alloc(), kept.as_slice(), stored.as_slice())?;
        row.agrees(found.as_slice())?;
    }
    Ok(())
}

// A text, and the same without its reserved fields.
const RESERVED: &str = r#"
Status: RO\r\nTo: a\r\n => To: a\r\n
sTATUS \t: RO\r\nx-keywords:\r\n a\r\n\tb\r\nTo: c\r\n d\r\n => To: c\r\n d\r\n
X-IMAP: 1\r\nX-ImapBase: 2\r\nX-Uid: 3\r\nX-STATUS: A\r\n\r\nb => \r\nb
# a line of blanks goes on with the field above it
Status: O\r\n \t\r\nTo: a\r\n => To: a\r\n
# no field stands above the first line
 a\r\nStatus: O\r\n =>  a\r\n
# other names, and no field
Statu: a\r\nStatuses: b\r\nStatus\r\n: c\r\n => Statu: a\r\nStatuses: b\r\nStatus\r\n: c\r\n
 Status: a\r\n =>  Status: a\r\n
# the body stays
\r\nStatus: a\r\n => \r\nStatus: a\r\n
\e => \e
"#;

#[test]
fn reserved_fields_go_with_their_continuation(rt: HostRuntime) -> Result<(), Fail> {
    for row in &rows(rt.alloc(), RESERVED)? {
        let found = drop_reserved(rt.alloc(), row.text.as_slice())?;
        row.agrees(found.as_slice())?;
    }
    Ok(())
}

#[test]
fn a_header_ends_in_an_empty_line(rt: HostRuntime) -> Result<(), Fail> {
    assert_eq!(rt;
        end_last(rt.alloc(), b"a\nb")?.as_slice(),
        b"a\nb\n".as_slice()
    );
    assert_eq!(rt;
        end_header(rt.alloc(), b"a\r\n")?.as_slice(),
        b"a\r\n\r\n".as_slice()
    );
    assert_eq!(rt;
        end_header(rt.alloc(), b"a\n\nb")?.as_slice(),
        b"a\n\nb".as_slice()
    );
    Ok(())
}

// A text, and the same with its delimiter lines quoted.
const QUOTED: &str = r#"
From c@d Tue Apr  2 08:00:00 2024\r\n => >From c@d Tue Apr  2 08:00:00 2024\r\n
From c@d\r\n => From c@d\r\n
>From c@d Tue Apr  2 08:00:00 2024\n => >From c@d Tue Apr  2 08:00:00 2024\n
F\nFrom c@d Tue Apr  2 08:00:00 2024\nFr\nFrom Tue Apr  2 08:00:00 2024\nG => F\n>From c@d Tue Apr  2 08:00:00 2024\nFr\n>From Tue Apr  2 08:00:00 2024\nG
"#;

#[test]
fn only_a_delimiter_line_is_quoted(rt: HostRuntime) -> Result<(), Fail> {
    for row in &rows(rt.alloc(), QUOTED)? {
        let found = quote_from(rt.alloc(), row.text.as_slice())?;
        row.agrees(found.as_slice())?;
    }
    let borders = b"\x01\x01\x01\x01\n\x01\x01\x01\x01\x01\n";
    let quoted = b" \x01\x01\x01\x01\n\x01\x01\x01\x01\x01\n";
    assert_eq!(rt;
        quote_mmdf(rt.alloc(), borders)?.as_slice(),
        quoted.as_slice()
    );
    Ok(())
}

// A text, its unix form, and its mmdf form.
const FORMS: &str = r#"
\e => \r\n | \r\n
\n => \r\n | \r\n
Status: O\n\x01\x01\x01\x01\nTo: a\n\nFrom c@d Tue Apr  2 08:00:00 2024 => \x01\x01\x01\x01\r\nTo: a\r\n\r\n>From c@d Tue Apr  2 08:00:00 2024\r\n |  \x01\x01\x01\x01\r\nTo: a\r\n\r\nFrom c@d Tue Apr  2 08:00:00 2024\r\n
X-UID: 1 => \r\n | \r\n
"#;

#[test]
fn a_form_ends_its_lines_and_its_header(rt: HostRuntime) -> Result<(), Fail> {
    for row in &rows(rt.alloc(), FORMS)? {
        let unix = unix_form(rt.alloc(), row.text.as_slice())?;
        let mmdf = mmdf_form(rt.alloc(), row.text.as_slice())?;
        let found = both(rt.alloc(), unix.as_slice(), mmdf.as_slice())?;
        row.agrees(found.as_slice())?;
    }
    Ok(())
}

#[test]
fn no_nul_is_left(rt: HostRuntime) {
    let mut bytes = *b"\0a\0";
    clean_nul(&mut bytes);
    assert_eq!(rt; bytes, *b"\x80a\x80");
}

// As many empty lines as a message may have bytes.
#[test]
fn a_long_text_of_empty_lines(rt: HostRuntime) -> Result<(), Fail> {
    let mut text = Vec::new(rt.alloc());
    text.resize(16 << 20, b'\n')?;
    let kept = keep_lines(rt.alloc(), text.as_slice())?;
    assert!(rt; kept.len() == 32 << 20);
    let stored = store_lf(rt.alloc(), kept.as_slice())?;
    assert!(rt; stored.as_slice() == text.as_slice());
    let formed = unix_form(rt.alloc(), text.as_slice())?;
    assert!(rt; formed.as_slice() == kept.as_slice());
    Ok(())
}
