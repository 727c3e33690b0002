//! Which bytes are names, and which are targets of a creation.
use crate::calls::driver_word;
use mail_tree::{Name, Target};
use std::alloc::{AllocError, Global};
use std::test::Fail;
use test_tables::{Row, rows};

const NAMES: &str = r#"
a => a
a b => a b
\x20 => \x20
a.b/c. => a.b/c.
!$&'()+,-;<=?@[]^_`{|}~ => !$&'()+,-;<=?@[]^_`{|}~
# parts of 1 to 200 bytes, and 255 bytes in all
\(200:a\) => \(200:a\)
\(201:a\) => none
a/\(201:a\) => none
\(200:a\)/\(54:b\) => \(200:a\)/\(54:b\)
\(200:a\)/\(55:b\) => none
\(127:a/\)b => \(127:a/\)b
\(128:a/\)b => none
\e => none
/ => none
/a => none
a/ => none
a//b => none
# a point that begins a part, and three bytes that begin a name
.x => none
. => none
.. => none
a/.x => none
a/.. => none
\e#x => none
~x => none
{x => none
a#/#b/~c/{d => a#/#b/~c/{d
# bytes that are none of a name
a"b => none
a\\b => none
a%b => none
a*b => none
a\x1fb => none
a\tb => none
a\n => none
a\0 => none
a\x7f => none
a\x80 => none
# INBOX in any case is the first part alone
inbox => INBOX
InBoX => INBOX
inbox/x => INBOX/x
inboX/inbox => INBOX/inbox
inboxes => inboxes
inbox.a => inbox.a
x/inbox => x/inbox
inbo => inbo
inbox/ => none
"#;

// A row that begins with `#` is a remark, so a name that does has `\e` before it.
fn reads_name(alloc: Global, row: &Row) -> Result<(), Fail> {
    match Name::read(alloc, row.text.as_slice())? {
        Some(name) => row.agrees(name.as_slice()),
        None => row.agrees(b"none"),
    }
}

#[test]
fn names_are_read(rt: HostRuntime) -> Result<(), Fail> {
    for row in &rows(rt.alloc(), NAMES)? {
        reads_name(rt.alloc(), row)?;
    }
    Ok(())
}

const TARGETS: &str = r#"
x => unix x
inbox => unix INBOX
d/ => unix d/
inbox/ => unix INBOX/
\e#driver.unix/a/b => unix a/b
\e#driver.mbx/b => mbx b
\e#driver.mbx/inbox/x/ => mbx INBOX/x/
\e#driver.mbx/\(200:a\)/\(54:b\)/ => mbx \(200:a\)/\(54:b\)/
\e#driver.mbx/\(200:a\)/\(55:b\) => none
\(200:a\)/\(54:b\)/ => unix \(200:a\)/\(54:b\)/
# drivers that don't stand, or are named in another way
\e#driver.mmdf/b => none
\e#driver.mtx/b => none
\e#driver.tenex/b => none
\e#driver.mh/b => none
\e#driver.mix/b => none
\e#driver.mix/d/ => none
\e#driver.imap/b => none
\e#driver.MBX/b => none
\e#Driver.mbx/b => none
\e#driver.mbx => none
\e#driver/mbx/b => none
\e#mbx/b => none
# no name behind it, or a bad one
\e => none
/ => none
d// => none
\e#driver.mbx/ => none
\e#driver.mbx// => none
\e#driver.mbx//b => none
\e#driver.mbx/b// => none
\e#driver.mbx/#driver.mbx/b => none
\e#driver.mbx/.x => none
.x/ => none
"#;

fn target_text(alloc: Global, target: &Target) -> Result<String, AllocError> {
    let word = driver_word(target.driver);
    let name = target.name.as_str();
    let end = if target.directory { "/" } else { "" };
    format!(in alloc; "{word} {name}{end}")
}

fn reads_target(alloc: Global, row: &Row) -> Result<(), Fail> {
    match Target::read(alloc, row.text.as_slice())? {
        Some(target) => row.agrees(target_text(alloc, &target)?.as_bytes()),
        None => row.agrees(b"none"),
    }
}

#[test]
fn targets_are_read(rt: HostRuntime) -> Result<(), Fail> {
    for row in &rows(rt.alloc(), TARGETS)? {
        reads_target(rt.alloc(), row)?;
    }
    Ok(())
}
