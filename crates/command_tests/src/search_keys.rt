//! Search keys in commands and in texts of their own, and what sets hold.
use crate::shown_commands::{key_text, pieces_text};
use imap_arguments::{Set, number_at, set_at};
use imap_syntax::read_keys;
use std::alloc::{AllocError, Global};
use std::test::Fail;
use test_tables::{Row, rows};

/// What stands behind `a SEARCH ` and before the CRLF, and the units, as `shown_commands` shows them.
pub const KEYS: &str = r#"
# each key
ALL => a Search All
ANSWERED => a Search Answered
DELETED => a Search Deleted
DRAFT => a Search Draft
FLAGGED => a Search Flagged
SEEN => a Search Seen
RECENT => a Search Recent
UNANSWERED => a Search Unanswered
UNDELETED => a Search Undeleted
UNDRAFT => a Search Undraft
UNFLAGGED => a Search Unflagged
UNSEEN => a Search Unseen
NEW => a Search New
OLD => a Search Old
aLL answered Deleted drafT fLAGGED seen Recent unanswered undeleted undraft unflagged unseen new old => a Search AllOf(All,Answered,Deleted,Draft,Flagged,Seen,Recent,Unanswered,Undeleted,Undraft,Unflagged,Unseen,New,Old,)
BCC x => a Search Bcc "x"
CC "a b" => a Search Cc "a b"
FROM {3}\r\na b => Announce; a Search From "a b"
SUBJECT "" => a Search Subject ""
to ] => a Search To "]"
Body 5 => a Search Body "5"
text "\xff\\"\\\\" => a Search Text "\xff"\\"
HEADER X-A "y z" => a Search Header "X-A" "y z"
header "" {0}\r\n => Announce; a Search Header "" ""
Header {1}\r\n: {2}\r\n\r\n => Announce; Announce; a Search Header ":" "\r\n"
KEYWORD work => a Search Keyword work
Unkeyword $Junk => a Search Unkeyword $Junk
KEYWORD \(64:k\) => a Search Keyword \(64:k\)
UNKEYWORD \(65:k\) => Bad a 6
BEFORE 1-Feb-1994 => a Search Before 8797
On 01-feb-1994 => a Search On 8797
SINCE "1-Feb-1994" => a Search Since 8797
sentbefore "01-FEB-1994" => a Search SentBefore 8797
SENTON 29-Feb-2000 => a Search SentOn 11016
SENTSINCE 31-Dec-9999 => a Search SentSince 2932896
ON 31-Dec-1969 => a Search On -1
ON "1-Jan-0000" => a Search On -719528
LARGER 5 => a Search Larger 5
smaller 0 => a Search Smaller 0
LARGER 0000000000 => a Search Larger 0
LARGER 4294967295 => a Search Larger 4294967295
UID 1 => a Search Uid 1:1
uid *:4,2 => a Search Uid *:4,2:2
1 => a Search 1:1
* => a Search *:*
*:4 => a Search *:4
4:2,*,4294967295 => a Search 4:2,*:*,4294967295:4294967295
NOT SEEN => a Search Not(Seen)
not 1 => a Search Not(1:1)
OR SEEN DRAFT => a Search Or(Seen,Draft)
or or not 1 2 (3) => a Search Or(Or(Not(1:1),2:2),AllOf(3:3,))
OR BCC "x" NOT HEADER a b => a Search Or(Bcc "x",Not(Header "a" "b"))
(SEEN) => a Search AllOf(Seen,)
((SEEN)) => a Search AllOf(AllOf(Seen,),)
(SEEN) (DRAFT OLD) => a Search AllOf(AllOf(Seen,),AllOf(Draft,Old,),)
SEEN NOT DRAFT 1 => a Search AllOf(Seen,Not(Draft),1:1,)
SUBJECT {1}\r\nx NOT FROM {1}\r\ny => Announce; Announce; a Search AllOf(Subject "x",Not(From "y"),)
SEEN SEEN => a Search AllOf(Seen,Seen,)

# arguments that are missing
ALL  => Bad a 5
BCC => Bad a 5
BCC  => Bad a 5
CC => Bad a 5
FROM => Bad a 5
SUBJECT => Bad a 5
TO => Bad a 5
BODY => Bad a 5
TEXT "x => Bad a 5
TEXT "\\" => Bad a 5
HEADER => Bad a 5
HEADER x => Bad a 5
HEADER x  => Bad a 5
HEADER "x" " => Bad a 5
HEADER {1}\r\nx => Announce; Bad a 5
KEYWORD => Bad a 5
KEYWORD  => Bad a 5
UNKEYWORD => Bad a 5
BEFORE => Bad a 5
ON  => Bad a 5
SINCE " => Bad a 5
SENTBEFORE "1-Feb-1994 => Bad a 5
SENTON => Bad a 5
SENTSINCE "1-Feb-1994\\" => Bad a 5
LARGER => Bad a 5
LARGER  => Bad a 5
SMALLER => Bad a 5
UID => Bad a 5
UID  => Bad a 5
UID 1, => Bad a 5
1: => Bad a 5
*, => Bad a 5
NOT => Bad a 5
NOT  => Bad a 5
OR => Bad a 5
OR  => Bad a 5
OR SEEN => Bad a 5
OR SEEN  => Bad a 5
( => Bad a 5
(SEEN => Bad a 5
(SEEN  => Bad a 5
(SEEN (DRAFT) => Bad a 5
NOT ( => Bad a 5

# numbers that are out of range
0 => Bad a 9
0 x => Bad a 9
00000000000 => Bad a 9
1,0 => Bad a 9
4294967296 => Bad a 9
*:99999999999 => Bad a 9
UID 0 => Bad a 9
UID 1:4294967296 => Bad a 9
LARGER 4294967296 => Bad a 9
SMALLER 99999999999 => Bad a 9
SEEN 0 => Bad a 9
NOT 0 => Bad a 9
OR 0 x => Bad a 9
OR 1 0 => Bad a 9
(0 => Bad a 9

# what isn't understood
FROB => Bad a 6
AL => Bad a 6
ALLX => Bad a 6
ALL, => Bad a 6
"ALL" => Bad a 6
{3}\r\nALL => Announce; Bad a 6
{3+} => Bad a 6
% => Bad a 6
\\SEEN => Bad a 6
) => Bad a 6
-1 => Bad a 6
:1 => Bad a 6
1, 2 => Bad a 6
00000000001 => Bad a 6
\r => Bad a 6
SEEN  DRAFT => Bad a 6
SEEN FROB => Bad a 6
SEEN CHARSET x => Bad a 6
(CHARSET x SEEN) => Bad a 6
BCC ( => Bad a 6
BCC  x => Bad a 6
BCC(x => Bad a 6
BCC"x" => Bad a 6
CC "\\a" => Bad a 6
FROM "\r" => Bad a 6
BODY {x} => Bad a 6
HEADER ( x => Bad a 6
HEADER x( => Bad a 6
HEADER "x""y" => Bad a 6
HEADER x ( => Bad a 6
KEYWORD "x" => Bad a 6
KEYWORD \\Seen => Bad a 6
KEYWORD {1}\r\nx => Announce; Bad a 6
UNKEYWORD (x) => Bad a 6
KEYWORD \x80 => Bad a 6
SINCE 3 => Bad a 6
SINCE 3-Apr- => Bad a 6
SINCE 3-Apr-2024x => Bad a 6
SINCE 0-Feb-1994 => Bad a 6
SINCE 001-Feb-1994 => Bad a 6
SINCE 29-Feb-1900 => Bad a 6
SINCE 1-Feb-94 => Bad a 6
SINCE 1-2-1994 => Bad a 6
SINCE "" => Bad a 6
SINCE "1-Feb-94" => Bad a 6
SINCE " 1-Feb-1994" => Bad a 6
SINCE "1\\-Feb-1994" => Bad a 6
SINCE (1-Feb-1994) => Bad a 6
SINCE {10}\r\n1-Feb-1994 => Announce; Bad a 6
LARGER x => Bad a 6
LARGER "5" => Bad a 6
LARGER -1 => Bad a 6
LARGER * => Bad a 6
LARGER {1}\r\n5 => Announce; Bad a 6
LARGER 00000000000 => Bad a 6
SMALLER 00000000005 => Bad a 6
UID x => Bad a 6
UID ALL => Bad a 6
UID (1) => Bad a 6
UID "1" => Bad a 6
NOT(SEEN) => Bad a 6
NOT  SEEN => Bad a 6
NOT x => Bad a 6
NOTSEEN => Bad a 6
OR(SEEN)(DRAFT) => Bad a 6
OR (SEEN)(DRAFT) => Bad a 6
OR SEEN,DRAFT => Bad a 6
OR SEEN  DRAFT => Bad a 6
OR x 0 => Bad a 6
OR 1x 2 => Bad a 6
() => Bad a 6
( SEEN) => Bad a 6
(SEEN ) => Bad a 6
(SEEN  DRAFT) => Bad a 6
(SEEN(DRAFT)) => Bad a 6
(SEEN] => Bad a 6
(SEEN) x => Bad a 6
(1x) => Bad a 6

# text behind the keys
1x => Bad a 7
1:2:3 => Bad a 7
1* => Bad a 7
*1 => Bad a 7
SEEN) => Bad a 7
SEEN( => Bad a 7
SEEN] => Bad a 7
SEEN\x80 => Bad a 7
SEEN\r => Bad a 7
(SEEN)x => Bad a 7
(SEEN)(DRAFT) => Bad a 7
SEEN{1}\r\nx => Announce; Bad a 7
BCC x( => Bad a 7
BCC "x"y => Bad a 7
BCC {1}\r\nxy => Announce; Bad a 7
HEADER x y) => Bad a 7
KEYWORD x] => Bad a 7
SINCE 1-Feb-1994] => Bad a 7
SINCE "1-Feb-1994"x => Bad a 7
LARGER 5x => Bad a 7
UID 1x => Bad a 7
NOT SEEN) => Bad a 7
OR SEEN DRAFT) => Bad a 7
"#;

/// Keys in keys and many keys, in the same form.
pub const DEEP_KEYS: &str = r#"
# keys of 100 levels, and one level more
\(99:NOT \)ALL => a Search \(99:Not(\)All\(99:)\)
\(100:NOT \)ALL => Bad a 6
\(100:NOT \)0 => Bad a 6
\(100:NOT \)ALL( => Bad a 6
\(100:NOT \)\e => Bad a 5
\(100:NOT \)NOT => Bad a 6
\(99:NOT \)NOT => Bad a 5
\(99:NOT \)0 => Bad a 9
\(99:OR \)ALL\(99: SEEN\) => a Search \(99:Or(\)All\(99:,Seen)\)
\(100:OR \)ALL\(100: SEEN\) => Bad a 6
\(100:OR \)\e => Bad a 5
\(99:OR ALL \)SEEN => a Search \(99:Or(All,\)Seen\(99:)\)
\(100:OR ALL \)SEEN => Bad a 6
\(99:(\)ALL\(99:)\) => a Search \(99:AllOf(\)All\(99:,)\)
\(100:(\)ALL\(100:)\) => Bad a 6
\(100:(\) => Bad a 5
\(101:(\) => Bad a 6
\(100:(\)) => Bad a 6
\(49:NOT (\)NOT ALL\(49:)\) => a Search \(49:Not(AllOf(\)Not(All)\(49:,))\)
\(50:NOT (\)ALL\(50:)\) => Bad a 6
# each of several keys has its own depth
\(99:NOT \)ALL \(99:(\)SEEN\(99:)\) 1 => a Search AllOf(\(99:Not(\)All\(99:)\),\(99:AllOf(\)Seen\(99:,)\),1:1,)
ALL \(99:(\)SEEN 1 \(99:)\) => Bad a 6
ALL \(100:NOT \)SEEN => Bad a 6
# many keys in one line
\(60000:(\) => Bad a 6
\(60000:(\)ALL\(5000:)\) => Bad a 6
\(16000:NOT \) => Bad a 6
\(6000:ALL \)OLD => a Search AllOf(\(6000:All,\)Old,)
\(6000:(1) \)OLD => a Search AllOf(\(6000:AllOf(1:1,),\)Old,)
NOT (\(6000:1 \)*) => a Search Not(AllOf(\(6000:1:1,\)*:*,))
"#;

/// A search for these keys.
pub fn search(alloc: Global, keys: &[u8]) -> Result<Vec<u8>, AllocError> {
    let mut stream = Vec::from_slice(alloc, b"a SEARCH ")?;
    stream.extend_from_slice(keys)?;
    stream.extend_from_slice(b"\r\n")?;
    Ok(stream)
}

#[test]
fn keys_are_what_they_mean(rt: HostRuntime) -> Result<(), Fail> {
    for table in [KEYS, DEEP_KEYS] {
        for row in &rows(rt.alloc(), table)? {
            let stream = search(rt.alloc(), row.text.as_slice())?;
            let found = pieces_text(rt.alloc(), &[stream.as_slice()])?;
            row.agrees(found.as_slice())?;
        }
    }
    Ok(())
}

// A text of keys and its key.
const TEXTS: &str = r#"
ALL => All
aLL seen => AllOf(All,Seen,)
(OR "x" y => none
\e => none
 \e => none
 ALL => none
ALL  => none
ALL  SEEN => none
ALL\r => none
\rALL => none
ALL\n => none
ALL\r\n => none
SUBJECT "\r" => none
SUBJECT "\xff" => Subject "\xff"
ALL\0 => none
SUBJECT "\0" => none
{3} => none
{3}\r\nALL => none
SUBJECT {3} => none
SUBJECT {3}\r\nabc => none
SUBJECT {3}\r\nabc ALL => none
SUBJECT {0}\r\n => none
SUBJECT "{3}" => Subject "{3}"
CHARSET US-ASCII ALL => none
charset utf-8 ALL => none
SUBJECT charset => Subject "charset"
SUBJECT \(70000:x\) => Subject "\(70000:x\)"
\(20000:ALL \)OLD => AllOf(\(20000:All,\)Old,)
\(70000:(\) => none
"#;

#[test]
fn texts_are_keys_or_not(rt: HostRuntime) -> Result<(), Fail> {
    for row in &rows(rt.alloc(), TEXTS)? {
        let found = key_text(rt.alloc(), read_keys(rt.alloc(), row.text.as_slice())?)?;
        row.agrees(found.as_slice())?;
    }
    Ok(())
}

// The key of a text, as a command shows it whose tag is `a`.
fn shown_key(alloc: Global, text: &[u8]) -> Result<Vec<u8>, AllocError> {
    let mut shown = Vec::from_slice(alloc, b"a Search ")?;
    shown.extend_from_slice(key_text(alloc, read_keys(alloc, text)?)?.as_slice())?;
    Ok(shown)
}

// What the text of a row gives where it has no literal: the key of the command, or none where the command is bad.
fn text_row(alloc: Global, row: &Row) -> Result<Row, AllocError> {
    let expected = if row.expected.as_slice().starts_with(b"a ") {
        row.expected.as_slice()
    } else {
        b"a Search none"
    };
    Ok(Row {
        line: row.line,
        text: Vec::from_slice(alloc, row.text.as_slice())?,
        expected: Vec::from_slice(alloc, expected)?,
    })
}

#[test]
fn texts_are_the_keys_of_their_commands(rt: HostRuntime) -> Result<(), Fail> {
    for table in [KEYS, DEEP_KEYS] {
        for row in &rows(rt.alloc(), table)? {
            if !row.text.as_slice().contains(&b'{') {
                let row = text_row(rt.alloc(), row)?;
                let found = shown_key(rt.alloc(), row.text.as_slice())?;
                row.agrees(found.as_slice())?;
            }
        }
    }
    Ok(())
}

// A set and the largest number, and which of the numbers below the set has.
const SETS: &str = r#"
1 5 => 1
5 1 => 5
100 7 => \e
* 5 => 5
* 4294967295 => 4294967295
*:* 7 => 7
*:4 7 => 4 5 6 7
*:4 4 => 4
*:4 2 => 2 3 4
4:* 2 => 2 3 4
4:2 7 => 2 3 4
2:4 7 => 2 3 4
3:3 7 => 3
1,3,5 7 => 1 3 5
1:2,2:3,7 7 => 1 2 3 7
*,1 7 => 1 7
4:2,*:6 7 => 2 3 4 6 7
4294967295 7 => 4294967295
4294967295:6 7 => 6 7 4294967295
0000000003 7 => 3
1:* 4294967295 => 1 2 3 4 5 6 7 4294967295
7:4294967295 0 => 7 4294967295
"#;

const NUMBERS: [u32; 9] = [0, 1, 2, 3, 4, 5, 6, 7, 4_294_967_295];

fn members(alloc: Global, set: &Set, largest: u32) -> Result<Vec<u8>, AllocError> {
    let mut shown = Vec::new(alloc);
    for number in NUMBERS {
        if set.has(number, largest) {
            if !shown.is_empty() {
                shown.push(b' ')?;
            }
            let text = format!(in alloc; "{number}")?;
            shown.extend_from_slice(text.as_bytes())?;
        }
    }
    Ok(shown)
}

fn members_of(alloc: Global, text: &[u8]) -> Result<Vec<u8>, Fail> {
    let Ok((set, behind)) = set_at(alloc, text) else {
        return Err(Fail::new("a row without a set"));
    };
    let Ok((largest, _)) = number_at(behind.get(1..).unwrap_or(&[])) else {
        return Err(Fail::new("a row without a largest number"));
    };
    Ok(members(alloc, &set, largest)?)
}

#[test]
fn sets_have_the_numbers_between_their_ends(rt: HostRuntime) -> Result<(), Fail> {
    for row in &rows(rt.alloc(), SETS)? {
        let found = members_of(rt.alloc(), row.text.as_slice())?;
        row.agrees(found.as_slice())?;
    }
    Ok(())
}
