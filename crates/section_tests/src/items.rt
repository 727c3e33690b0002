//! FETCH items of the messages of `messages`, and what they need of a text.
ghost use Rattle.std.specs.Prelude.{◌<◌, ◌^◌, length};

use crate::messages::{items_of, looked, messages, number_of, words};
use body_sections::{Need, item, needed, part_head, put_items};
use head_fields::body_start;
use imap_arguments::{FetchItems, Item};
use looked_message::Looked;
use mail_fields::{Keyword, split_at_space};
use std::alloc::Global;
use std::test::Fail;
use test_tables::{Row, rows};

/// The number of a message and items, and what is said of them: flags, dates, envelopes and structures.
const ITEMS: &str = r#"
1 (FLAGS ENVELOPE BODYSTRUCTURE) => FLAGS (\\Seen) ENVELOPE ("Mon, 1 Apr 2024 12:00:00 +0000" "Hello" (("Ann Lee" NIL "ann" "example.org")) (("Ann Lee" NIL "ann" "example.org")) (("Ann Lee" NIL "ann" "example.org")) ((NIL NIL "bob" "example.org")) NIL NIL NIL "<1@example.org>") BODYSTRUCTURE ("TEXT" "PLAIN" ("CHARSET" "US-ASCII") NIL NIL "7BIT" 9 1 NIL NIL NIL NIL)
2 (FLAGS ENVELOPE BODYSTRUCTURE) => FLAGS (\\Flagged Work) ENVELOPE ("Tue, 2 Apr 2024 08:30:00 +0200" "Plan" ((NIL NIL "ann" "example.org")) ((NIL NIL "ann" "example.org")) ((NIL NIL "ann" "example.org")) ((NIL NIL "bob" "example.org")("Lee, Cy" NIL "cy" "example.org")) NIL NIL NIL "<2@example.org>") BODYSTRUCTURE ("TEXT" "PLAIN" ("CHARSET" "US-ASCII") NIL NIL "7BIT" 12 2 NIL NIL NIL NIL)
3 (FLAGS ENVELOPE BODYSTRUCTURE) => FLAGS (\\Recent) ENVELOPE ("Wed, 3 Apr 2024 09:00:00 +0000" "Both" (("News" NIL "news" "example.org")) (("News" NIL "news" "example.org")) (("News" NIL "news" "example.org")) ((NIL NIL "bob" "example.org")) NIL NIL NIL NIL) BODYSTRUCTURE (("TEXT" "PLAIN" ("CHARSET" "utf-8") NIL NIL "7BIT" 2 1 NIL NIL NIL NIL)("TEXT" "HTML" ("CHARSET" "utf-8") NIL NIL "7BIT" 9 1 NIL NIL NIL NIL) "ALTERNATIVE" ("BOUNDARY" "b1") NIL NIL NIL)
1 FAST => FLAGS (\\Seen) INTERNALDATE " 1-Apr-2024 12:00:00 +0000" RFC822.SIZE 148
1 ALL => FLAGS (\\Seen) INTERNALDATE " 1-Apr-2024 12:00:00 +0000" RFC822.SIZE 148 ENVELOPE ("Mon, 1 Apr 2024 12:00:00 +0000" "Hello" (("Ann Lee" NIL "ann" "example.org")) (("Ann Lee" NIL "ann" "example.org")) (("Ann Lee" NIL "ann" "example.org")) ((NIL NIL "bob" "example.org")) NIL NIL NIL "<1@example.org>")
3 FULL => FLAGS (\\Recent) INTERNALDATE " 3-Apr-2024 09:00:00 +0000" RFC822.SIZE 296 ENVELOPE ("Wed, 3 Apr 2024 09:00:00 +0000" "Both" (("News" NIL "news" "example.org")) (("News" NIL "news" "example.org")) (("News" NIL "news" "example.org")) ((NIL NIL "bob" "example.org")) NIL NIL NIL NIL) BODY (("TEXT" "PLAIN" ("CHARSET" "utf-8") NIL NIL "7BIT" 2 1)("TEXT" "HTML" ("CHARSET" "utf-8") NIL NIL "7BIT" 9 1) "ALTERNATIVE")
4 (FLAGS UID INTERNALDATE RFC822.SIZE) => FLAGS (\\Seen \\Answered \\Flagged \\Deleted \\Draft Work $Junk \\Recent) UID 8 INTERNALDATE "31-Mar-2024 23:59:59 -1200" RFC822.SIZE 498
5 (FLAGS UID INTERNALDATE RFC822.SIZE) => FLAGS (\\Draft $Junk) UID 9 INTERNALDATE " 1-Apr-2024 00:00:00 +1400" RFC822.SIZE 128
6 FAST => FLAGS (\\Recent) INTERNALDATE " 2-Apr-2024 00:00:00 -1359" RFC822.SIZE 0
7 FAST => FLAGS (\\Seen \\Recent) INTERNALDATE " 1-Jan-1970 00:00:00 +0000" RFC822.SIZE 30
8 FAST => FLAGS (\\Answered Work) INTERNALDATE "31-Dec-9999 23:59:59 +0000" RFC822.SIZE 25
10 (FLAGS UID INTERNALDATE RFC822.SIZE) => FLAGS (\\Flagged \\Deleted Work $Junk) UID 4294967295 INTERNALDATE "28-Feb-2000 12:00:00 +0000" RFC822.SIZE 42
4 BODYSTRUCTURE => BODYSTRUCTURE (("TEXT" "PLAIN" NIL NIL NIL "7BIT" 5 1 NIL NIL NIL NIL)(("TEXT" "PLAIN" ("CHARSET" "US-ASCII") NIL NIL "7BIT" 5 1 NIL NIL NIL NIL)("TEXT" "HTML" NIL NIL NIL "7BIT" 3 1 NIL NIL NIL NIL) "ALTERNATIVE" ("BOUNDARY" "i") NIL NIL NIL)("MESSAGE" "RFC822" NIL "<m>" NIL "7BIT" 129 (NIL "inner" NIL NIL NIL NIL NIL NIL NIL NIL) (("MESSAGE" "RFC822" NIL NIL NIL "7BIT" 23 (NIL "deep" NIL NIL NIL NIL NIL NIL NIL NIL) ("TEXT" "PLAIN" ("CHARSET" "US-ASCII") NIL NIL "7BIT" 6 1 NIL NIL NIL NIL) 3 NIL NIL NIL NIL) "DIGEST" ("BOUNDARY" "d") NIL NIL NIL) 12 NIL NIL NIL NIL)("TEXT" "PLAIN" ("CHARSET" "US-ASCII") NIL NIL "7BIT" 0 0 NIL NIL NIL NIL)("TEXT" "PLAIN" ("CHARSET" "US-ASCII") NIL NIL "7BIT" 4 1 NIL NIL NIL NIL) "MIXED" ("BOUNDARY" "o") NIL NIL NIL)
5 BODYSTRUCTURE => BODYSTRUCTURE ("MESSAGE" "RFC822" NIL NIL NIL "7BIT" 81 (NIL "carried" NIL NIL NIL NIL NIL NIL NIL NIL) (("TEXT" "PLAIN" ("CHARSET" "US-ASCII") NIL NIL "7BIT" 3 1 NIL NIL NIL NIL)("TEXT" "PLAIN" ("CHARSET" "US-ASCII") NIL NIL "7BIT" 0 0 NIL NIL NIL NIL) "MIXED" ("BOUNDARY" "x") NIL NIL NIL) 10 NIL NIL NIL NIL)
6 ENVELOPE => ENVELOPE (NIL NIL NIL NIL NIL NIL NIL NIL NIL NIL)
6 BODYSTRUCTURE => BODYSTRUCTURE ("TEXT" "PLAIN" ("CHARSET" "US-ASCII") NIL NIL "7BIT" 0 0 NIL NIL NIL NIL)
7 ENVELOPE => ENVELOPE (NIL "only" NIL NIL NIL NIL NIL NIL NIL NIL)
9 ENVELOPE => ENVELOPE (NIL {8}\r\na\tfolded NIL NIL NIL NIL NIL NIL NIL NIL)
10 BODYSTRUCTURE => BODYSTRUCTURE ("APPLICATION" "OCTET-STREAM" NIL NIL NIL "7BIT" 11 NIL NIL NIL NIL)
"#;

/// Whole texts, headers and bodies.
const WHOLES: &str = r#"
1 RFC822 => RFC822 {148}\r\nDate: Mon, 1 Apr 2024 12:00:00 +0000\r\nFrom: Ann Lee <ann@example.org>\r\nTo: bob@example.org\r\nSubject: Hello\r\nMessage-ID: <1@example.org>\r\n\r\nHi Bob.\r\n
1 RFC822.HEADER => RFC822.HEADER {139}\r\nDate: Mon, 1 Apr 2024 12:00:00 +0000\r\nFrom: Ann Lee <ann@example.org>\r\nTo: bob@example.org\r\nSubject: Hello\r\nMessage-ID: <1@example.org>\r\n\r\n
1 RFC822.TEXT => RFC822.TEXT {9}\r\nHi Bob.\r\n
1 BODY[] => BODY[] {148}\r\nDate: Mon, 1 Apr 2024 12:00:00 +0000\r\nFrom: Ann Lee <ann@example.org>\r\nTo: bob@example.org\r\nSubject: Hello\r\nMessage-ID: <1@example.org>\r\n\r\nHi Bob.\r\n
1 BODY.PEEK[] => BODY[] {148}\r\nDate: Mon, 1 Apr 2024 12:00:00 +0000\r\nFrom: Ann Lee <ann@example.org>\r\nTo: bob@example.org\r\nSubject: Hello\r\nMessage-ID: <1@example.org>\r\n\r\nHi Bob.\r\n
1 BODY[HEADER] => BODY[HEADER] {139}\r\nDate: Mon, 1 Apr 2024 12:00:00 +0000\r\nFrom: Ann Lee <ann@example.org>\r\nTo: bob@example.org\r\nSubject: Hello\r\nMessage-ID: <1@example.org>\r\n\r\n
1 BODY[TEXT] => BODY[TEXT] {9}\r\nHi Bob.\r\n
6 RFC822 => RFC822 {0}\r\n
6 (RFC822.HEADER RFC822.TEXT) => RFC822.HEADER {0}\r\n RFC822.TEXT {0}\r\n
6 BODY[] => BODY[] {0}\r\n
6 BODY[HEADER] => BODY[HEADER] {0}\r\n
6 BODY[TEXT] => BODY[TEXT] {0}\r\n
7 (RFC822.HEADER RFC822.TEXT) => RFC822.HEADER {30}\r\nSubject: only\nCC: x@y, the end RFC822.TEXT {0}\r\n
7 BODY[HEADER] => BODY[HEADER] {30}\r\nSubject: only\nCC: x@y, the end
7 BODY[TEXT] => BODY[TEXT] {0}\r\n
8 (RFC822.HEADER RFC822.TEXT) => RFC822.HEADER {1}\r\n\n RFC822.TEXT {24}\r\nSubject: in the body\nend
8 BODY[TEXT] => BODY[TEXT] {24}\r\nSubject: in the body\nend
9 (RFC822.HEADER RFC822.TEXT) => RFC822.HEADER {107}\r\njunk\n folded junk\nSubject: a\r\r\n\tfolded \r\nNo colon\n more\nSUBJECT : second\nX-8: caf\xe9\nX-Empty:\n \nX-Last:z\r\n\r\r\n RFC822.TEXT {8}\r\nB\xff\r\nrest
4 BODY[HEADER] => BODY[HEADER] {91}\r\nFrom: Ann <ann@example.org>\r\nSubject: nested\r\nContent-Type: multipart/mixed; boundary=o\r\n\r\n
"#;

/// Partials: within a section, at its end, over it and past it.
const PARTIALS: &str = r#"
1 BODY.PEEK[]<0.4> => BODY[]<0> {4}\r\nDate
1 BODY[]<140.8> => BODY[]<140> {8}\r\ni Bob.\r\n
1 BODY[]<140.1000> => BODY[]<140> {8}\r\ni Bob.\r\n
1 BODY[]<147.1> => BODY[]<147> {1}\r\n\n
1 BODY[]<148.1> => BODY[]<148> {0}\r\n
1 BODY[]<149.1> => BODY[]<149> {0}\r\n
1 BODY[]<4294967295.4294967295> => BODY[]<4294967295> {0}\r\n
1 BODY[HEADER]<2.5> => BODY[HEADER]<2> {5}\r\nte: M
1 BODY[HEADER]<138.2> => BODY[HEADER]<138> {1}\r\n\n
1 BODY[TEXT]<1.2> => BODY[TEXT]<1> {2}\r\ni 
1 BODY[TEXT]<8.5> => BODY[TEXT]<8> {1}\r\n\n
1 BODY[TEXT]<9.1> => BODY[TEXT]<9> {0}\r\n
1 BODY[2]<0.1> => BODY[2]<0> NIL
3 BODY[1]<1.1> => BODY[1]<1> {1}\r\ni
4 BODY[3.TEXT]<2.3> => BODY[3.TEXT]<2> {3}\r\nd\r\n
4 BODY[4]<0.1> => BODY[4]<0> {0}\r\n
6 BODY.PEEK[]<0.4> => BODY[]<0> {0}\r\n
6 BODY[TEXT]<1.2> => BODY[TEXT]<1> {0}\r\n
9 BODY[TEXT]<1.2> => BODY[TEXT]<1> {2}\r\n\xff\r
9 BODY[HEADER.FIELDS.NOT (x)]<0.7> => BODY[HEADER.FIELDS.NOT (x)]<0> {7}\r\nSubject
4 BODY[3.HEADER.FIELDS (x-long)]<0.9> => BODY[3.HEADER.FIELDS (x-long)]<0> {9}\r\nX-Long: a
8 BODY[HEADER.FIELDS.NOT (x)]<0.7> => BODY[HEADER.FIELDS.NOT (x)]<0> {2}\r\n\r\n
"#;

/// Fields of headers: folded, repeated, empty, without a line end, and beside lines that are none.
const FIELDS: &str = r#"
1 BODY[HEADER.FIELDS (Subject)] => BODY[HEADER.FIELDS (Subject)] {18}\r\nSubject: Hello\r\n\r\n
1 BODY[HEADER.FIELDS (subject from NOTHING "a b" "")] => BODY[HEADER.FIELDS (subject from NOTHING "a b" "")] {51}\r\nFrom: Ann Lee <ann@example.org>\r\nSubject: Hello\r\n\r\n
1 BODY[HEADER.FIELDS (x)] => BODY[HEADER.FIELDS (x)] {2}\r\n\r\n
1 BODY[HEADER.FIELDS.NOT (date TO Message-Id)] => BODY[HEADER.FIELDS.NOT (date TO Message-Id)] {51}\r\nFrom: Ann Lee <ann@example.org>\r\nSubject: Hello\r\n\r\n
6 BODY[HEADER.FIELDS (Subject)] => BODY[HEADER.FIELDS (Subject)] {2}\r\n\r\n
6 BODY[HEADER.FIELDS.NOT (SUBJECT)] => BODY[HEADER.FIELDS.NOT (SUBJECT)] {2}\r\n\r\n
7 BODY[HEADER.FIELDS.NOT (SUBJECT)] => BODY[HEADER.FIELDS.NOT (SUBJECT)] {18}\r\nCC: x@y, the end\r\n
8 BODY[HEADER.FIELDS (Subject)] => BODY[HEADER.FIELDS (Subject)] {2}\r\n\r\n
9 BODY[HEADER.FIELDS (Subject)] => BODY[HEADER.FIELDS (Subject)] {42}\r\nSubject: a\r\r\n\tfolded \r\nSUBJECT : second\n\r\n
9 BODY[HEADER.FIELDS.NOT (SUBJECT)] => BODY[HEADER.FIELDS.NOT (SUBJECT)] {33}\r\nX-8: caf\xe9\nX-Empty:\n \nX-Last:z\r\n\r\n
9 BODY.PEEK[HEADER.FIELDS (x-empty x-last X-8)] => BODY[HEADER.FIELDS (x-empty x-last X-8)] {33}\r\nX-8: caf\xe9\nX-Empty:\n \nX-Last:z\r\n\r\n
4 BODY[3.HEADER.FIELDS (Subject)] => BODY[3.HEADER.FIELDS (Subject)] {33}\r\nSubject: inner\r\nsubject : two\r\n\r\n
4 BODY[3.HEADER.FIELDS.NOT (Subject Content-Type)] => BODY[3.HEADER.FIELDS.NOT (Subject Content-Type)] {17}\r\nX-Long: a\r\n b\r\n\r\n
5 BODY[3.HEADER.FIELDS (Subject)] => BODY[3.HEADER.FIELDS (Subject)] NIL
"#;

/// Part numbers: through multiparts and messages, and to where nothing is. A section that is there and empty is no NIL.
const PARTS: &str = r#"
1 BODY[1] => BODY[1] {9}\r\nHi Bob.\r\n
1 BODY[2] => BODY[2] NIL
1 BODY[1.MIME] => BODY[1.MIME] {139}\r\nDate: Mon, 1 Apr 2024 12:00:00 +0000\r\nFrom: Ann Lee <ann@example.org>\r\nTo: bob@example.org\r\nSubject: Hello\r\nMessage-ID: <1@example.org>\r\n\r\n
1 BODY[1.HEADER] => BODY[1.HEADER] NIL
1 BODY[1.TEXT] => BODY[1.TEXT] NIL
1 BODY[1.1] => BODY[1.1] NIL
3 BODY.PEEK[1] => BODY[1] {2}\r\nHi
3 BODY[2] => BODY[2] {9}\r\n<p>Hi</p>
3 BODY.PEEK[3] => BODY[3] NIL
3 BODY[1.MIME] => BODY[1.MIME] {43}\r\nContent-Type: text/plain; charset=utf-8\r\n\r\n
4 BODY[1] => BODY[1] {5}\r\nfirst
4 BODY[1.MIME] => BODY[1.MIME] {36}\r\nContent-Type: text/plain\r\nX-A: 1\r\n\r\n
4 BODY[1.HEADER] => BODY[1.HEADER] NIL
4 BODY[1.TEXT] => BODY[1.TEXT] NIL
4 BODY[1.1] => BODY[1.1] NIL
4 BODY[2] => BODY[2] {58}\r\n--i\r\n\r\nplain\r\n--i\r\nContent-Type: text/html\r\n\r\n<p>\r\n--i--\r\n
4 BODY[2.1] => BODY[2.1] {5}\r\nplain
4 BODY[2.2] => BODY[2.2] {3}\r\n<p>
4 BODY[2.3] => BODY[2.3] NIL
4 BODY[2.MIME] => BODY[2.MIME] {51}\r\nContent-Type: multipart/alternative; boundary=i\r\n\r\n
4 BODY[2.1.MIME] => BODY[2.1.MIME] {2}\r\n\r\n
4 BODY[2.2.MIME] => BODY[2.2.MIME] {27}\r\nContent-Type: text/html\r\n\r\n
4 BODY[2.TEXT] => BODY[2.TEXT] NIL
4 BODY[2.1.1] => BODY[2.1.1] NIL
4 BODY[3] => BODY[3] {129}\r\nSubject: inner\r\nsubject : two\r\nX-Long: a\r\n b\r\nContent-Type: multipart/digest; boundary=d\r\n\r\n--d\r\n\r\nSubject: deep\r\n\r\nbottom\r\n--d--
4 BODY[3.MIME] => BODY[3.MIME] {49}\r\nContent-Type: message/rfc822\r\nContent-ID: <m>\r\n\r\n
4 BODY[3.HEADER] => BODY[3.HEADER] {92}\r\nSubject: inner\r\nsubject : two\r\nX-Long: a\r\n b\r\nContent-Type: multipart/digest; boundary=d\r\n\r\n
4 BODY[3.TEXT] => BODY[3.TEXT] {37}\r\n--d\r\n\r\nSubject: deep\r\n\r\nbottom\r\n--d--
4 BODY[3.1] => BODY[3.1] {23}\r\nSubject: deep\r\n\r\nbottom
4 BODY[3.1.HEADER] => BODY[3.1.HEADER] {17}\r\nSubject: deep\r\n\r\n
4 BODY[3.1.TEXT] => BODY[3.1.TEXT] {6}\r\nbottom
4 BODY[3.1.MIME] => BODY[3.1.MIME] {2}\r\n\r\n
4 BODY[3.1.1] => BODY[3.1.1] {6}\r\nbottom
4 BODY[3.1.1.MIME] => BODY[3.1.1.MIME] {17}\r\nSubject: deep\r\n\r\n
4 BODY[3.1.1.HEADER] => BODY[3.1.1.HEADER] NIL
4 BODY[3.1.1.1] => BODY[3.1.1.1] NIL
4 BODY[3.2] => BODY[3.2] NIL
4 BODY[4] => BODY[4] {0}\r\n
4 BODY[4.MIME] => BODY[4.MIME] {0}\r\n
4 BODY[5] => BODY[5] {4}\r\nbody
4 BODY[5.MIME] => BODY[5.MIME] {23}\r\nno header at all--o\r\n\r\n
4 BODY[6] => BODY[6] NIL
4 BODY[4294967295] => BODY[4294967295] NIL
4 (BODY[1] BODY[2.1] BODY BODY[3.1.1] UID BODY[1]) => BODY[1] {5}\r\nfirst BODY[2.1] {5}\r\nplain BODY (("TEXT" "PLAIN" NIL NIL NIL "7BIT" 5 1)(("TEXT" "PLAIN" ("CHARSET" "US-ASCII") NIL NIL "7BIT" 5 1)("TEXT" "HTML" NIL NIL NIL "7BIT" 3 1) "ALTERNATIVE")("MESSAGE" "RFC822" NIL "<m>" NIL "7BIT" 129 (NIL "inner" NIL NIL NIL NIL NIL NIL NIL NIL) (("MESSAGE" "RFC822" NIL NIL NIL "7BIT" 23 (NIL "deep" NIL NIL NIL NIL NIL NIL NIL NIL) ("TEXT" "PLAIN" ("CHARSET" "US-ASCII") NIL NIL "7BIT" 6 1) 3) "DIGEST") 12)("TEXT" "PLAIN" ("CHARSET" "US-ASCII") NIL NIL "7BIT" 0 0)("TEXT" "PLAIN" ("CHARSET" "US-ASCII") NIL NIL "7BIT" 4 1) "MIXED") BODY[3.1.1] {6}\r\nbottom UID 8 BODY[1] {5}\r\nfirst
5 BODY[1] => BODY[1] {81}\r\nSubject: carried\nContent-Type: multipart/mixed; boundary=x\n\n--x\n\none\n--x\n\n\n--x--\n
5 BODY[1.MIME] => BODY[1.MIME] {47}\r\ncontent-type: message/rfc822\nSubject: carries\n\n
5 BODY[1.HEADER] => BODY[1.HEADER] {60}\r\nSubject: carried\nContent-Type: multipart/mixed; boundary=x\n\n
5 BODY[1.TEXT] => BODY[1.TEXT] {21}\r\n--x\n\none\n--x\n\n\n--x--\n
5 BODY[1.1] => BODY[1.1] {3}\r\none
5 BODY[1.2] => BODY[1.2] {0}\r\n
5 BODY[1.1.1] => BODY[1.1.1] NIL
5 BODY[2] => BODY[2] NIL
6 BODY[1] => BODY[1] {0}\r\n
6 BODY[1.MIME] => BODY[1.MIME] {0}\r\n
8 BODY[1] => BODY[1] {24}\r\nSubject: in the body\nend
8 BODY[1.MIME] => BODY[1.MIME] {1}\r\n\n
10 BODY[1] => BODY[1] {11}\r\n--\n\nx\n----\n
10 BODY[1.1] => BODY[1.1] NIL
"#;

/// The size of a text and an item, and what it needs.
const NEEDS: &str = r#"
6 FLAGS => nothing
6 INTERNALDATE => nothing
6 RFC822.SIZE => nothing
6 UID => nothing
6 ENVELOPE => front
6 BODY => whole
6 BODYSTRUCTURE => whole
0 RFC822 => part 0 0
1000 RFC822 => part 0 1000
6 RFC822.HEADER => front
6 RFC822.TEXT => whole
1000 BODY[] => part 0 1000
0 BODY.PEEK[]<0.4> => part 0 0
6 BODY.PEEK[]<0.4> => part 0 4
6 BODY[]<3.5> => part 3 6
1000 BODY[]<3.5> => part 3 8
6 BODY[]<6.1> => part 6 6
1000 BODY[]<4294967295.4294967295> => part 1000 1000
6 BODY[HEADER]<2.5> => front
6 BODY[HEADER.FIELDS (a)] => front
6 BODY[HEADER.FIELDS.NOT (a)]<1.1> => front
6 BODY[TEXT] => whole
6 BODY[1] => whole
6 BODY[1.HEADER] => whole
6 BODY[2.MIME] => whole
"#;

// A message and items, by a row.
fn asked<'a>(
    alloc: Global,
    row: &Row,
    messages: &'a [Row],
    words: &'a [Keyword],
) -> Result<(Looked<'a>, FetchItems), Fail> {
    let (number, text) = split_at_space(row.text.as_slice());
    let message = looked(messages, number_of(number)?, words)?;
    Ok((message, items_of(alloc, text)?))
}

// Items in one piece.
fn in_one(alloc: Global, items: &[Item], message: &Looked<'_>) -> Result<Vec<u8>, Fail> {
    if message.text.len() >= 4294967296 {
        return Err(Fail::new("a text that is too long"));
    }
    let mut written = Vec::new(alloc);
    put_items(alloc, &mut written, items, message)?;
    Ok(written)
}

// An item over no more of the text than it needs.
fn of_need(alloc: Global, asked: &Item, message: &Looked<'_>) -> Result<Vec<u8>, Fail>
    requires { length message.now.text.now < 2 ^ 32 }
{
    let text = message.text;
    match needed(asked, message.info.size) {
        Need::Nothing => Ok(item(
            alloc,
            asked,
            &Looked {
                text: b"",
                ..*message
            },
        )?),
        Need::Front => {
            let Some(text) = text.get(..body_start(text)) else {
                return Err(Fail::new("a header that goes on behind its text"));
            };
            Ok(item(alloc, asked, &Looked { text, ..*message })?)
        }
        Need::Part(from, to) => {
            let Some(octets) = text.get(from as usize..to as usize) else {
                return Err(Fail::new("a part that goes on behind its text"));
            };
            let mut written = part_head(alloc, asked, to.saturating_sub(from))?;
            written.extend_from_slice(octets)?;
            Ok(written)
        }
        Need::Whole => Ok(item(alloc, asked, message)?),
    }
}

// Items one by one, each over what it needs.
fn by_needs(alloc: Global, items: &[Item], message: &Looked<'_>) -> Result<Vec<u8>, Fail> {
    if message.text.len() >= 4294967296 {
        return Err(Fail::new("a text that is too long"));
    }
    let mut written = Vec::new(alloc);
    for one in items {
        if !written.is_empty() {
            written.push(b' ')?;
        }
        written.extend_from_slice(of_need(alloc, one, message)?.as_slice())?;
    }
    Ok(written)
}

// Each row of a table, in one piece and by needs.
fn say(alloc: Global, table: &str) -> Result<(), Fail> {
    let words = words(alloc)?;
    let messages = messages(alloc)?;
    for row in &rows(alloc, table)? {
        let (message, items) = asked(alloc, row, messages.as_slice(), words.as_slice())?;
        row.agrees(in_one(alloc, items.as_slice(), &message)?.as_slice())?;
        row.agrees(by_needs(alloc, items.as_slice(), &message)?.as_slice())?;
    }
    Ok(())
}

#[test]
fn items_say_this(rt: HostRuntime) -> Result<(), Fail> {
    say(rt.alloc(), ITEMS)
}

#[test]
fn whole_texts_headers_and_bodies_are_literals(rt: HostRuntime) -> Result<(), Fail> {
    say(rt.alloc(), WHOLES)
}

#[test]
fn partials_end_where_the_section_ends(rt: HostRuntime) -> Result<(), Fail> {
    say(rt.alloc(), PARTIALS)
}

#[test]
fn fields_stand_as_they_are_before_an_empty_line(rt: HostRuntime) -> Result<(), Fail> {
    say(rt.alloc(), FIELDS)
}

#[test]
fn numbers_lead_to_parts(rt: HostRuntime) -> Result<(), Fail> {
    say(rt.alloc(), PARTS)
}

#[test]
fn items_need_no_more_than_this(rt: HostRuntime) -> Result<(), Fail> {
    let alloc = rt.alloc();
    for row in &rows(alloc, NEEDS)? {
        let (size, text) = split_at_space(row.text.as_slice());
        let size = number_of(size)?;
        for one in items_of(alloc, text)?.as_slice() {
            let shown = match needed(one, size) {
                Need::Nothing => format!(in alloc; "nothing")?,
                Need::Front => format!(in alloc; "front")?,
                Need::Part(from, to) => format!(in alloc; "part {from} {to}")?,
                Need::Whole => format!(in alloc; "whole")?,
            };
            row.agrees(shown.as_bytes())?;
        }
    }
    Ok(())
}
