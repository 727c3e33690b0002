//! Envelopes and body structures, as a client is told of them.
use head_fields::Span;
use mime_parts::{Part, structure};
use std::alloc::Global;
use std::test::Fail;
use structure_text::{body, envelope};
use test_tables::rows;

// A text that begins with a header, and its envelope.
const ENVELOPES: &str = r#"
Date: Mon, 1 Apr 2024 12:00:00 +0000\r\nFrom: Ann Lee <ann@example.org>\r\nTo: bob@example.org\r\nSubject: Hello\r\nMessage-ID: <1@example.org>\r\n\r\nHi Bob.\r\n => ("Mon, 1 Apr 2024 12:00:00 +0000" "Hello" (("Ann Lee" NIL "ann" "example.org")) (("Ann Lee" NIL "ann" "example.org")) (("Ann Lee" NIL "ann" "example.org")) ((NIL NIL "bob" "example.org")) NIL NIL NIL "<1@example.org>")
Date: Tue, 2 Apr 2024 08:30:00 +0200\r\nFrom: ann@example.org\r\nTo: bob@example.org, "Lee, Cy" <cy@example.org>\r\nSubject: Plan\r\nMessage-ID: <2@example.org>\r\n\r\nOne.\r\nTwo.\r\n => ("Tue, 2 Apr 2024 08:30:00 +0200" "Plan" ((NIL NIL "ann" "example.org")) ((NIL NIL "ann" "example.org")) ((NIL NIL "ann" "example.org")) ((NIL NIL "bob" "example.org")("Lee, Cy" NIL "cy" "example.org")) NIL NIL NIL "<2@example.org>")
Date: Wed, 3 Apr 2024 09:00:00 +0000\r\nFrom: News <news@example.org>\r\nTo: bob@example.org\r\nSubject: Both\r\nMIME-Version: 1.0\r\nContent-Type: multipart/alternative; boundary=b1\r\n\r\n--b1\r\nContent-Type: text/plain; charset=utf-8\r\n\r\nHi\r\n--b1\r\nContent-Type: text/html; charset=utf-8\r\n\r\n<p>Hi</p>\r\n--b1--\r\n => ("Wed, 3 Apr 2024 09:00:00 +0000" "Both" (("News" NIL "news" "example.org")) (("News" NIL "news" "example.org")) (("News" NIL "news" "example.org")) ((NIL NIL "bob" "example.org")) NIL NIL NIL NIL)
\e => (NIL NIL NIL NIL NIL NIL NIL NIL NIL NIL)
\nSubject: x\n => (NIL NIL NIL NIL NIL NIL NIL NIL NIL NIL)
# each field stands at its place, whatever their order and the case of their names
MESSAGE-ID: m\nIn-Reply-To: i\nBcc: b@x\nCc: c@x\nTo: t@x\nReply-To: r@x\nSender: s@x\nFrom: f@x\nsubject: j\nDate: d\n\n => ("d" "j" ((NIL NIL "f" "x")) ((NIL NIL "s" "x")) ((NIL NIL "r" "x")) ((NIL NIL "t" "x")) ((NIL NIL "c" "x")) ((NIL NIL "b" "x")) "i" "m")
# of two fields the first counts; one that is empty is there
Subject: a\nSubject: b\n\n => (NIL "a" NIL NIL NIL NIL NIL NIL NIL NIL)
Subject:\nSubject: b\n\n => (NIL "" NIL NIL NIL NIL NIL NIL NIL NIL)
Subject: a\r\n b\r\n\tc \r\n\r\n => (NIL {5}\r\na b\tc NIL NIL NIL NIL NIL NIL NIL NIL)
# bytes that no quoted string has
Subject: a"b\n\n => (NIL {3}\r\na"b NIL NIL NIL NIL NIL NIL NIL NIL)
Subject: a\\b\n\n => (NIL {3}\r\na\\b NIL NIL NIL NIL NIL NIL NIL NIL)
Subject: \xc3\xb6\n\n => (NIL {2}\r\n\xc3\xb6 NIL NIL NIL NIL NIL NIL NIL NIL)
Subject: a\x7fb~\n\n => (NIL {4}\r\na\x7fb~ NIL NIL NIL NIL NIL NIL NIL NIL)
Subject: !#~ [b]\n\n => (NIL "!#~ [b]" NIL NIL NIL NIL NIL NIL NIL NIL)
# groups, with and without members
To: Friends: ann@example.org;\n\n => (NIL NIL NIL NIL NIL ((NIL NIL "Friends" NIL)(NIL NIL "ann" "example.org")(NIL NIL NIL NIL)) NIL NIL NIL NIL)
To: undisclosed-recipients:;\n\n => (NIL NIL NIL NIL NIL ((NIL NIL "undisclosed-recipients" NIL)(NIL NIL NIL NIL)) NIL NIL NIL NIL)
# outside the grammar, and without an address
To: a@b@c\n\n => (NIL NIL NIL NIL NIL NIL NIL NIL NIL NIL)
To: Bob Smith\nTo: a@b\n\n => (NIL NIL NIL NIL NIL NIL NIL NIL NIL NIL)
Cc: ,\nBcc:\n\n => (NIL NIL NIL NIL NIL NIL NIL NIL NIL NIL)
# what has no address takes those of From
From: a@b\nSender: x y\nReply-To: ,,\n\n => (NIL NIL ((NIL NIL "a" "b")) ((NIL NIL "a" "b")) ((NIL NIL "a" "b")) NIL NIL NIL NIL NIL)
Sender: a@b\n\n => (NIL NIL NIL ((NIL NIL "a" "b")) NIL NIL NIL NIL NIL NIL)
# a local part alone, a route, a name with a quote, an encoded word
To: root\n\n => (NIL NIL NIL NIL NIL ((NIL NIL "root" "")) NIL NIL NIL NIL)
To: A "b\\"c" <@d,@e:f@g>\n\n => (NIL NIL NIL NIL NIL (({5}\r\nA b"c "@d,@e" "f" "g")) NIL NIL NIL NIL)
To: =?utf-8?q?J=C3=B6rg?= <j@x>\n\n => (NIL NIL NIL NIL NIL (("=?utf-8?q?J=C3=B6rg?=" NIL "j" "x")) NIL NIL NIL NIL)
"#;

// The parts of a text that isn't too long.
fn tree(alloc: Global, text: &[u8]) -> Result<Part, Fail> {
    if text.len() >= 1 << 32 {
        return Err(Fail::new("too long"));
    }
    Ok(structure(alloc, text)?)
}

#[test]
fn envelopes_of_headers(rt: HostRuntime) -> Result<(), Fail> {
    for row in &rows(rt.alloc(), ENVELOPES)? {
        let part = tree(rt.alloc(), row.text.as_slice())?;
        let found = envelope(rt.alloc(), row.text.as_slice(), part.head)?;
        row.agrees(found.as_slice())?;
    }
    Ok(())
}

// The envelope of what stands at a span.
#[test]
fn a_span_counts_as_far_as_it_stands_in_the_text(rt: HostRuntime) -> Result<(), Fail> {
    let text = b"Subject: a\n\nSubject: b\n\n";
    let inner = envelope(rt.alloc(), text, Span { from: 12, to: 24 })?;
    assert_eq!(rt;
        inner.as_slice(),
        b"(NIL \"b\" NIL NIL NIL NIL NIL NIL NIL NIL)".as_slice()
    );
    let longer = envelope(rt.alloc(), text, Span { from: 12, to: 99 })?;
    assert_eq!(rt; longer.as_slice(), inner.as_slice());
    let empty = envelope(rt.alloc(), text, Span { from: 50, to: 40 })?;
    assert_eq!(rt;
        empty.as_slice(),
        b"(NIL NIL NIL NIL NIL NIL NIL NIL NIL NIL)".as_slice()
    );
    Ok(())
}

// A text, and its structure for BODYSTRUCTURE and for BODY.
const BODIES: &str = r#"
Date: Mon, 1 Apr 2024 12:00:00 +0000\r\nFrom: Ann Lee <ann@example.org>\r\nTo: bob@example.org\r\nSubject: Hello\r\nMessage-ID: <1@example.org>\r\n\r\nHi Bob.\r\n => ("TEXT" "PLAIN" ("CHARSET" "US-ASCII") NIL NIL "7BIT" 9 1 NIL NIL NIL NIL) | ("TEXT" "PLAIN" ("CHARSET" "US-ASCII") NIL NIL "7BIT" 9 1)
Date: Tue, 2 Apr 2024 08:30:00 +0200\r\nFrom: ann@example.org\r\nTo: bob@example.org, "Lee, Cy" <cy@example.org>\r\nSubject: Plan\r\nMessage-ID: <2@example.org>\r\n\r\nOne.\r\nTwo.\r\n => ("TEXT" "PLAIN" ("CHARSET" "US-ASCII") NIL NIL "7BIT" 12 2 NIL NIL NIL NIL) | ("TEXT" "PLAIN" ("CHARSET" "US-ASCII") NIL NIL "7BIT" 12 2)
Date: Wed, 3 Apr 2024 09:00:00 +0000\r\nFrom: News <news@example.org>\r\nTo: bob@example.org\r\nSubject: Both\r\nMIME-Version: 1.0\r\nContent-Type: multipart/alternative; boundary=b1\r\n\r\n--b1\r\nContent-Type: text/plain; charset=utf-8\r\n\r\nHi\r\n--b1\r\nContent-Type: text/html; charset=utf-8\r\n\r\n<p>Hi</p>\r\n--b1--\r\n => (("TEXT" "PLAIN" ("CHARSET" "utf-8") NIL NIL "7BIT" 2 1 NIL NIL NIL NIL)("TEXT" "HTML" ("CHARSET" "utf-8") NIL NIL "7BIT" 9 1 NIL NIL NIL NIL) "ALTERNATIVE" ("BOUNDARY" "b1") NIL NIL NIL) | (("TEXT" "PLAIN" ("CHARSET" "utf-8") NIL NIL "7BIT" 2 1)("TEXT" "HTML" ("CHARSET" "utf-8") NIL NIL "7BIT" 9 1) "ALTERNATIVE")
# an empty message, a header alone, a body alone, a last line without its line end
\e => ("TEXT" "PLAIN" ("CHARSET" "US-ASCII") NIL NIL "7BIT" 0 0 NIL NIL NIL NIL) | ("TEXT" "PLAIN" ("CHARSET" "US-ASCII") NIL NIL "7BIT" 0 0)
A: b\n => ("TEXT" "PLAIN" ("CHARSET" "US-ASCII") NIL NIL "7BIT" 0 0 NIL NIL NIL NIL) | ("TEXT" "PLAIN" ("CHARSET" "US-ASCII") NIL NIL "7BIT" 0 0)
\nx\ny => ("TEXT" "PLAIN" ("CHARSET" "US-ASCII") NIL NIL "7BIT" 3 2 NIL NIL NIL NIL) | ("TEXT" "PLAIN" ("CHARSET" "US-ASCII") NIL NIL "7BIT" 3 2)
# each content field; lines are counted of texts and messages alone
Content-Type: image/png; name="a b"\nContent-ID: <1@x>\nContent-Description: A\n picture\nContent-Transfer-Encoding: base64 (c)\nContent-MD5: Q2hlY2s=\nContent-Disposition: Attachment; FileName=a.png\nContent-Language: en, De\nContent-Location: http://x/\n\nabcd\n => ("IMAGE" "PNG" ("NAME" "a b") "<1@x>" "A picture" "BASE64" 5 "Q2hlY2s=" ("ATTACHMENT" ("FILENAME" "a.png")) ("en" "De") "http://x/") | ("IMAGE" "PNG" ("NAME" "a b") "<1@x>" "A picture" "BASE64" 5)
# one language, a disposition without parameters, fields outside their grammar
Content-Type: Text\nContent-Disposition: inline\nContent-Language: en\n\n => ("TEXT" "PLAIN" ("CHARSET" "US-ASCII") NIL NIL "7BIT" 0 0 NIL ("INLINE" NIL) "en" NIL) | ("TEXT" "PLAIN" ("CHARSET" "US-ASCII") NIL NIL "7BIT" 0 0)
Content-Type: TEXT/X\nContent-Disposition: ;\nContent-Language: en de\nContent-Transfer-Encoding: @\nContent-ID:\n\n => ("TEXT" "X" NIL "" NIL "7BIT" 0 0 NIL NIL NIL NIL) | ("TEXT" "X" NIL "" NIL "7BIT" 0 0)
# parameters: two, with a quote, and one that can't be read
Content-Type: a/b; c=d (e); f="g\\"h"; i; j=k\n\n => ("A" "B" ("C" "d" "F" {3}\r\ng"h) NIL NIL "7BIT" 0 NIL NIL NIL NIL) | ("A" "B" ("C" "d" "F" {3}\r\ng"h) NIL NIL "7BIT" 0)
# a message in a message
Content-Type: message/rfc822\r\nSubject: out\r\n\r\nSubject: in\r\n\r\nx\r\n => ("MESSAGE" "RFC822" NIL NIL NIL "7BIT" 18 (NIL "in" NIL NIL NIL NIL NIL NIL NIL NIL) ("TEXT" "PLAIN" ("CHARSET" "US-ASCII") NIL NIL "7BIT" 3 1 NIL NIL NIL NIL) 3 NIL NIL NIL NIL) | ("MESSAGE" "RFC822" NIL NIL NIL "7BIT" 18 (NIL "in" NIL NIL NIL NIL NIL NIL NIL NIL) ("TEXT" "PLAIN" ("CHARSET" "US-ASCII") NIL NIL "7BIT" 3 1) 3)
# a digest
Content-Type: multipart/digest; boundary=b\n\n--b\n\nSubject: s\n\nx\n--b--\n => (("MESSAGE" "RFC822" NIL NIL NIL "7BIT" 13 (NIL "s" NIL NIL NIL NIL NIL NIL NIL NIL) ("TEXT" "PLAIN" ("CHARSET" "US-ASCII") NIL NIL "7BIT" 1 1 NIL NIL NIL NIL) 3 NIL NIL NIL NIL) "DIGEST" ("BOUNDARY" "b") NIL NIL NIL) | (("MESSAGE" "RFC822" NIL NIL NIL "7BIT" 13 (NIL "s" NIL NIL NIL NIL NIL NIL NIL NIL) ("TEXT" "PLAIN" ("CHARSET" "US-ASCII") NIL NIL "7BIT" 1 1) 3) "DIGEST")
# a multipart without a boundary, and one whose parts are none
Content-Type: multipart/mixed; x=y\nContent-ID: i\n\n--b\n => ("APPLICATION" "OCTET-STREAM" NIL "i" NIL "7BIT" 4 NIL NIL NIL NIL) | ("APPLICATION" "OCTET-STREAM" NIL "i" NIL "7BIT" 4)
Content-Type: multipart/mixed; boundary=b\n\n--b--\n => ("APPLICATION" "OCTET-STREAM" NIL NIL NIL "7BIT" 6 NIL NIL NIL NIL) | ("APPLICATION" "OCTET-STREAM" NIL NIL NIL "7BIT" 6)
# a multipart in a multipart, with a disposition
Content-Type: multipart/mixed; boundary=b\nContent-Disposition: inline\n\n--b\nContent-Type: multipart/x; boundary=c\n\n--c\n\n--c\n\n--b\nContent-Type: a/b\n\n--b-- => ((("TEXT" "PLAIN" ("CHARSET" "US-ASCII") NIL NIL "7BIT" 0 0 NIL NIL NIL NIL)("TEXT" "PLAIN" ("CHARSET" "US-ASCII") NIL NIL "7BIT" 0 0 NIL NIL NIL NIL) "X" ("BOUNDARY" "c") NIL NIL NIL)("A" "B" NIL NIL NIL "7BIT" 0 NIL NIL NIL NIL) "MIXED" ("BOUNDARY" "b") ("INLINE" NIL) NIL NIL) | ((("TEXT" "PLAIN" ("CHARSET" "US-ASCII") NIL NIL "7BIT" 0 0)("TEXT" "PLAIN" ("CHARSET" "US-ASCII") NIL NIL "7BIT" 0 0) "X")("A" "B" NIL NIL NIL "7BIT" 0) "MIXED")
"#;

fn bodies(alloc: Global, text: &[u8]) -> Result<Vec<u8>, Fail> {
    let part = tree(alloc, text)?;
    let mut shown = body(alloc, text, &part, true)?;
    shown.extend_from_slice(b" | ")?;
    shown.extend_from_slice(body(alloc, text, &part, false)?.as_slice())?;
    Ok(shown)
}

#[test]
fn structures_of_texts(rt: HostRuntime) -> Result<(), Fail> {
    for row in &rows(rt.alloc(), BODIES)? {
        let found = bodies(rt.alloc(), row.text.as_slice())?;
        row.agrees(found.as_slice())?;
    }
    Ok(())
}

// How many bytes the envelope and the structure have.
fn lengths(alloc: Global, text: &[u8]) -> Result<String, Fail> {
    let part = tree(alloc, text)?;
    let told = envelope(alloc, text, part.head)?;
    let shown = body(alloc, text, &part, true)?;
    Ok(format!(in alloc; "{} {}", told.len(), shown.len())?)
}

const HOSTILE: &str = r#"
# an envelope without a field has 41 bytes, and `("TEXT" "PLAIN" ("CHARSET" "US-ASCII") NIL NIL "7BIT" 0 0 NIL NIL NIL NIL)` has 74
\(100000:A: b\n\) => 41 74
To: \(1048576:,\) => 41 74
# 100,000 addresses of the 17 bytes `(NIL NIL "a" "b")` in parentheses, in the place of NIL
To: \(100000:a@b,\) => 1700040 74
# each of 50 messages has 110 bytes beside what it holds: `("MESSAGE" "RFC822" NIL NIL NIL "7BIT" `, a size of six digits, an envelope
# of 41 bytes, four digits of lines and ` NIL NIL NIL NIL)`; the 51st is the 72 bytes
# `("APPLICATION" "OCTET-STREAM" NIL NIL NIL "7BIT" 148470 NIL NIL NIL NIL)`
\(5000:Content-Type: message/rfc822\n\n\) => 41 5572
"#;

#[test]
fn hostile_texts_end(rt: HostRuntime) -> Result<(), Fail> {
    for row in &rows(rt.alloc(), HOSTILE)? {
        let found = lengths(rt.alloc(), row.text.as_slice())?;
        row.agrees(found.as_bytes())?;
    }
    Ok(())
}
