//! Runs of calls on a tree: what each answers, and which paths stand afterwards.
use crate::calls::call;
use crate::disk::{cut, host_of, shown_paths, text};
use bare_host::BareHost;
use std::alloc::Global;
use std::test::Fail;
use test_tables::{Row, rows};

// The answers of the calls of a row, which have `;` between them.
fn answers(alloc: Global, host: &mut BareHost, calls: &str) -> Result<String, Fail> {
    let mut shown = String::new(alloc);
    for (number, words) in calls.split(';').enumerate() {
        if number > 0 {
            shown.push(';')?;
        }
        let answer = call(alloc, host, words)?;
        shown.push_str(answer.as_str())?;
    }
    Ok(shown)
}

// `DISK|CALLS => ANSWERS|PATHS`.
fn runs(alloc: Global, row: &Row) -> Result<(), Fail> {
    let (disk, calls) = cut(text(row.text.as_slice())?);
    let mut host = host_of(alloc, disk)?;
    let mut shown = answers(alloc, &mut host, calls)?;
    shown.push('|')?;
    shown.push_str(shown_paths(alloc, &host)?.as_str())?;
    row.agrees(shown.as_bytes())
}

/// Runs each row of a table.
pub(crate) fn all_run(alloc: Global, table: &str) -> Result<(), Fail> {
    for row in &rows(alloc, table)? {
        runs(alloc, row)?;
    }
    Ok(())
}

fn only_answers(alloc: Global, row: &Row) -> Result<(), Fail> {
    let (disk, calls) = cut(text(row.text.as_slice())?);
    let mut host = host_of(alloc, disk)?;
    row.agrees(answers(alloc, &mut host, calls)?.as_bytes())
}

/// The same of rows whose calls write nothing: `DISK|CALLS => ANSWERS`.
pub(crate) fn all_answer(alloc: Global, table: &str) -> Result<(), Fail> {
    for row in &rows(alloc, table)? {
        only_answers(alloc, row)?;
    }
    Ok(())
}

const OPENING: &str = r#"
# files by their first line, and directories
a&b=From x Mon Apr  1 12:00:00 2024\n&c=junk\n&d/|open a;open b;open c;open d;open e => unix 77 0;unix 77 1;not a mailbox;not a mailbox;no such mailbox|a b c d/
a=*mbx*\r\n&b=*mbx*\r\r\n&c=*mbx*\n|open a;open b;open c => ill-formed mbx after 0;not a mailbox;not a mailbox|a b c
# drivers that don't stand
a=\x01\x01\x01\x01\n|open a => ill-formed mmdf after 0|a
a= 2-Apr-2024 08:00:00 +0200,1;000000000000\r\na|open a => ill-formed mtx after 0|a
a= 2-Apr-2024 08:00:00 +0200,1;000000000000\na|open a => ill-formed tenex after 0|a
a= 2-Apr-2024 08:00:00 +0200,1;000000000000\r\r\na|open a => not a mailbox|a
a/.mixmeta&b/.mh_sequences&c/.mixmeta&c/.mh_sequences|open a;open b;open c => ill-formed mix after 0;ill-formed mh after 0;ill-formed mix after 0|a/ a/.mixmeta b/ b/.mh_sequences c/ c/.mh_sequences c/.mixmeta
a/.mixmeta/&b/.mh_sequences/|open a;open b => not a mailbox;not a mailbox|a/ a/.mixmeta/ b/ b/.mh_sequences/
# what stands below a mailbox or another file is seen by no name
a&b=junk|open a/x;open b/x => no such mailbox;no such mailbox|a b
a/.mh_sequences&a/1&a/x&a/b/x|open a/1;open a/x;open a/b;open a/b/x => no such mailbox;no such mailbox;no such mailbox;no such mailbox|a/ a/.mh_sequences a/1 a/b/ a/b/x a/x
a/b/x&a/c/.mixmeta&a/c/d/x|open a/b/x;open a/c/d/x => unix 77 0;no such mailbox|a/ a/b/ a/b/x a/c/ a/c/.mixmeta a/c/d/ a/c/d/x
# INBOX in any case is one name, and a file `inbox` is none
INBOX|open INBOX;open inbox;open iNbOx => unix 77 0;unix 77 0;unix 77 0|INBOX
inbox|open inbox;create inbox;open INBOX => no such mailbox;done;unix 18 0|INBOX inbox
INBOX/x|open inbox;open inbox/x;open INBOX/X => not a mailbox;unix 77 0;no such mailbox|INBOX/ INBOX/x
# bad names
|open a//b;open /a;open a/;open .x;open #driver.mbx/b => bad mailbox name;bad mailbox name;bad mailbox name;bad mailbox name;bad mailbox name|
"#;

#[test]
fn mailboxes_are_opened(rt: HostRuntime) -> Result<(), Fail> {
    all_run(rt.alloc(), OPENING)
}

const MAKING: &str = r#"
|create x;open x;create x => done;unix 18 0;mailbox exists|x
|create #driver.mbx/x;open x;create #driver.unix/x => done;mbx 18 0;mailbox exists|x
# directories above are made, and a directory is one with a slash at its end
|create #driver.mbx/a/b/c;open a/b;open a/b/c => done;not a mailbox;mbx 18 0|a/ a/b/ a/b/c
|create d/;create d/;create d;create #driver.mbx/e/f/;create d/x => done;mailbox exists;mailbox exists;done;done|d/ d/x e/ e/f/
# nothing is made where something stands, or below a mailbox or another file
x&y=junk&z=*mbx*\r\n|create x;create y;create z;create z/ => mailbox exists;mailbox exists;mailbox exists;mailbox exists|x y z
x&y=junk|create x/a;create x/a/;create x/a/b;create y/a => mailbox exists;mailbox exists;mailbox exists;mailbox exists|x y
d/.mixmeta&e/.mh_sequences|create d;create d/x;create d/x/;create d/x/y;create e/1;create e/ => mailbox exists;mailbox exists;mailbox exists;mailbox exists;mailbox exists;mailbox exists|d/ d/.mixmeta e/ e/.mh_sequences
# a free directory is taken for a driver of one file
d/.mixindex|create d;create d/x => mailbox exists;done|d/ d/.mixindex d/x
# INBOX
|create inbox;create INBOX;open InBox => done;mailbox exists;unix 18 0|INBOX
inbox/|create inbox/x;open Inbox/x => done;unix 18 0|INBOX/ INBOX/x inbox/
# bad names, and what is made at none of them
|create a//b;create /a;create .x;create a//;create /;create #driver.mix/b;create #driver.mix/d/ => bad mailbox name;bad mailbox name;bad mailbox name;bad mailbox name;bad mailbox name;bad mailbox name;bad mailbox name|
"#;

#[test]
fn mailboxes_are_made(rt: HostRuntime) -> Result<(), Fail> {
    all_run(rt.alloc(), MAKING)
}

const DELETING: &str = r#"
x&y|delete x;delete x;delete z => done;no such mailbox;no such mailbox|y
|create #driver.mbx/a/b;delete a;delete a/b;delete a => done;directory not empty;done;done|
# INBOX comes first, then the selected mailbox, then what isn't there
INBOX|delete INBOX;delete inbox;delete iNbox INBOX => INBOX is reserved;INBOX is reserved;INBOX is reserved|INBOX
INBOX/x|delete inbox;delete inbox/x;delete inbox => INBOX is reserved;done;INBOX is reserved|INBOX/
|delete inbox => INBOX is reserved|
x&y|delete x x;delete x y => mailbox is selected;done|y
d/x|delete x x;delete d d;delete d d/x => mailbox is selected;mailbox is selected;directory not empty|d/ d/x
# a file that is no mailbox, mailboxes that can't be opened, and drivers that don't stand
x=junk&y=*mbx*\r\n|delete x;delete y => not a mailbox;done|x
x=\x01\x01\x01\x01\n&y/.mixmeta&z/.mh_sequences|delete x;delete y;delete z => not a mailbox;not a mailbox;not a mailbox|x y/ y/.mixmeta z/ z/.mh_sequences
# what stands below a mailbox or another file is seen by no name
x&y=junk&d/.mh_sequences&d/e/x|delete x/a;delete y/a;delete d/e/x;delete d/e => no such mailbox;no such mailbox;no such mailbox;no such mailbox|d/ d/.mh_sequences d/e/ d/e/x x y
# a directory goes where nothing but leftover files stands in it
d/|delete d => done|
d/.mixindex&d/.mixstatus&d/.mix0000000a&d/.newrc&d/.new|delete d => done|
d/.mix0000000A&d/.mixFFFFFFFF|delete d => done|
d/.mix000000a|delete d => directory not empty|d/ d/.mix000000a
d/.mix0000000a0|delete d => directory not empty|d/ d/.mix0000000a0
d/.mixindexx|delete d => directory not empty|d/ d/.mixindexx
d/.mixindex/|delete d => directory not empty|d/ d/.mixindex/
d/.mixmeta/&e/.mh_sequences/|delete d;delete e => directory not empty;directory not empty|d/ d/.mixmeta/ e/ e/.mh_sequences/
d/.mailboxlist&e/.hidden&f/g/&h/x=junk|delete d;delete e;delete f;delete h => directory not empty;directory not empty;directory not empty;directory not empty|d/ d/.mailboxlist e/ e/.hidden f/ f/g/ h/ h/x
d/.mixindex&d/x|delete d;delete d/x;delete d => directory not empty;done;done|
# a name that is none, and subscribed names, which stay
x&.mailboxlist=x\n|delete x/;delete x;lsub "" * => bad mailbox name;done;x|.mailboxlist
"#;

#[test]
fn mailboxes_are_deleted(rt: HostRuntime) -> Result<(), Fail> {
    all_run(rt.alloc(), DELETING)
}

const RENAMING: &str = r#"
x|rename x y;open x;open y => done;no such mailbox;unix 77 0|y
d/x&d/e/y&d/.hidden&dd/z|rename d f;open f/e/y => done;unix 77 0|dd/ dd/z f/ f/.hidden f/e/ f/e/y f/x
# a file that is no mailbox, and mailboxes that can't be opened
x=junk&y=*mbx*\r\n&z=\x01\x01\x01\x01\n|rename x a;rename y b;rename z c => done;done;done|a b c
d/.mixmeta&e/.mh_sequences&e/1|rename d a;rename e b/c => done;done|a/ a/.mixmeta b/ b/c/ b/c/.mh_sequences b/c/1
# into itself, onto itself, onto another
d/x|rename d d/e;rename d d;rename d/x d/x/y;rename d d/x/e => mailbox exists;mailbox exists;mailbox exists;mailbox exists|d/ d/x
d/x&dx|rename dx d/y;rename d dx/e;rename d dz/e => done;done;no such mailbox|dx/ dx/e/ dx/e/x dx/e/y
x&y&d/|rename x y;rename x d;rename d y => mailbox exists;mailbox exists;mailbox exists|d/ x y
# directories above are made, and the old ones stay
d/x|rename d/x a/b/c => done|a/ a/b/ a/b/c d/
x&y&z=junk&d/.mixmeta|rename x y/a;rename x z/a;rename x d/a;rename x d/a/b => mailbox exists;mailbox exists;mailbox exists;mailbox exists|d/ d/.mixmeta x y z
# INBOX
INBOX|rename inbox x;rename INBOX x => INBOX is reserved;INBOX is reserved|INBOX
x|rename x Inbox;open inbox => done;unix 77 0|INBOX
INBOX&x|rename x inbox;rename x inbox/y => mailbox exists;mailbox exists|INBOX x
INBOX/x|rename inbox/x y;rename y inbox/z;rename inbox y => done;done;INBOX is reserved|INBOX/ INBOX/z
# the selected mailbox, or one in the directory, comes before what isn't there, and that before what is taken
d/x&dx|rename d e d/x;rename d/x e d/x;rename d e d/x/y;rename d e dx => mailbox is selected;mailbox is selected;mailbox is selected;done|dx e/ e/x
|rename x y x;rename x y y;rename x x/y => mailbox is selected;no such mailbox;no such mailbox|
y&z=junk|rename x y;rename y/a b;rename z/a b => no such mailbox;no such mailbox;no such mailbox|y z
d/.mh_sequences&d/1&d/x|rename d/1 y;rename d/x y => no such mailbox;no such mailbox|d/ d/.mh_sequences d/1 d/x
# bad names, from the left
x|rename x/ y;rename x y/;rename x #driver.mbx/y => bad mailbox name;bad mailbox name;bad mailbox name|x
# subscribed names stay
x&.mailboxlist=x\n|rename x y;lsub "" * => done;x|.mailboxlist y
"#;

#[test]
fn mailboxes_are_renamed(rt: HostRuntime) -> Result<(), Fail> {
    all_run(rt.alloc(), RENAMING)
}

const SUBSCRIBING: &str = r#"
|subscribe x/y;lsub "" %;unsubscribe x/y;unsubscribe x/y => done;(x);done;no such mailbox|.mailboxlist
|lsub "" *;unsubscribe x;subscribed => none;no such mailbox;|
# a new name comes last, and one that is there stays where it is; then nothing is written
|subscribe b;subscribe a;subscribe b;subscribed;lsub "" * => done;done;done;b,a,;a,b|.mailboxlist
.mailboxlist=b\na\nb\n|subscribe a;subscribed;subscribe c;subscribed => done;b,a,b,;done;b,a,c,|.mailboxlist
.mailboxlist=b\na\nb\nc\n|unsubscribe d;subscribed;unsubscribe b;subscribed => no such mailbox;b,a,b,c,;done;a,c,|.mailboxlist
# a last line without a line feed, an end with CRLF, and lines that are no names
.mailboxlist=a\nb|lsub "" *;unsubscribe b;subscribe c;subscribed => a;no such mailbox;done;a,c,|.mailboxlist
.mailboxlist=a|lsub "" *;subscribe a;subscribed => none;done;a,|.mailboxlist
.mailboxlist=a\r\nb\n|lsub "" *;unsubscribe a;unsubscribe b;subscribed => b;no such mailbox;done;|.mailboxlist
.mailboxlist=a//b\n\n.x\nc\n#d\na/\nd e\n|lsub "" *;subscribe f;subscribed => c,d e;done;c,d e,f,|.mailboxlist
# INBOX in any case is one name
.mailboxlist=inbox\ninbox/x\nInbox\n|lsub "" *;subscribe INBOX;subscribed;unsubscribe inBox;subscribed => INBOX,INBOX/x;done;inbox,inbox/x,Inbox,;done;INBOX/x,|.mailboxlist
|subscribe inbox;subscribed => done;INBOX,|.mailboxlist
# a directory in the place of the file, and files elsewhere
.mailboxlist/|lsub "" *;unsubscribe a;subscribe a;lsub "" * => none;no such mailbox;a call on the files failed;none|.mailboxlist/
d/.mailboxlist=a\n|lsub "" * => none|d/ d/.mailboxlist
# a mailbox needn't be there, and bad names are none
|subscribe a//b;unsubscribe a/;subscribe a/b => bad mailbox name;bad mailbox name;done|.mailboxlist
"#;

#[test]
fn names_are_subscribed(rt: HostRuntime) -> Result<(), Fail> {
    all_run(rt.alloc(), SUBSCRIBING)
}

const PATTERNS: &str = r#"
# `*` passes slashes and `%` doesn't; a pattern that ends in `%` asks for the directories above too
.mailboxlist=a/b/c\nx\na/d\nINBOX\n|lsub "" *;lsub "" %;lsub "" *%;lsub "" %/%;lsub "" a/* => INBOX,a/b/c,a/d,x;INBOX,(a),x;INBOX,(a),(a/b),a/b/c,a/d,x;(a/b),a/d;a/b/c,a/d|.mailboxlist
.mailboxlist=a/b/c\nx\na/d\nINBOX\n|lsub a/ %;lsub a /%;lsub a/b/ *;lsub a/b c;lsub "" a;lsub "" a/b => (a/b),a/d;(a/b),a/d;a/b/c;none;none;none|.mailboxlist
.mailboxlist=a/b/c\nx\na/d\nINBOX\n|lsub "" %/%/%;lsub "" *c;lsub "" *b%;lsub "" %b*;lsub "" **;lsub "" %%;lsub "" %*d => a/b/c;a/b/c;INBOX,(a/b);INBOX;INBOX,a/b/c,a/d,x;INBOX,(a),x;a/d|.mailboxlist
# the pattern is the reference where the pattern is empty
.mailboxlist=a\nx\n|lsub "" "";lsub x "";lsub % "" => none;x;a,x|.mailboxlist
# a directory that is subscribed itself
.mailboxlist=a/b\na\n|lsub "" %;lsub "" *% => a;a,a/b|.mailboxlist
# INBOX matches in any case, but not as a first part, and other names don't
.mailboxlist=INBOX\nINBOX/x\nABC\n|lsub "" inbox;lsub in box;lsub "" i%x;lsub "" inbox/*;lsub "" INBOX/*;lsub "" abc;lsub "" A*c => INBOX;INBOX;INBOX;none;INBOX/x;none;none|.mailboxlist
.mailboxlist=INBOX/x\n|lsub "" inb%;lsub "" inbox => (INBOX);none|.mailboxlist
# by rising bytes
.mailboxlist=a/b\na.b\na\nB\na-b\n|lsub "" * => B,a,a-b,a.b,a/b|.mailboxlist
"#;

#[test]
fn subscribed_names_are_matched(rt: HostRuntime) -> Result<(), Fail> {
    all_run(rt.alloc(), PATTERNS)
}
