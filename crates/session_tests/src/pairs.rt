//! Each command after each other, with a mailbox selected, under EXAMINE, and with none.
use crate::run::given;
use std::alloc::{AllocError, Global};
use std::process::Abort;
use std::test::Fail;

// One of each but LOGOUT, and one that there isn't.
const COMMANDS: &str = r#"CAPABILITY
NOOP
STARTTLS
LOGIN me secret
SELECT INBOX
EXAMINE INBOX
SELECT team
STATUS INBOX (UNSEEN)
CHECK
FETCH 1:* FAST
UID FETCH 2 FLAGS
STORE 2 +FLAGS (\Deleted Work)
UID STORE 3 -FLAGS.SILENT \Deleted
EXPUNGE
APPEND inbox (\Seen Work) {2};hi
APPEND team/work {2};hi
COPY 2 team/work
UID COPY 1:3 INBOX
CLOSE
SEARCH ALL
CREATE x/y
RENAME team/work x
DELETE team/work
SUBSCRIBE team
UNSUBSCRIBE team
LIST "" *
LSUB "" %
XYZZY"#;

// Each has a line with its tag, and what is said and what stands are the same with a byte for each read.
fn follow(
    rt: &impl Abort,
    alloc: Global,
    disk: &str,
    one: &str,
    other: &str,
) -> Result<(), AllocError> {
    let mut input = String::from_str(alloc, "a ")?;
    input.push_str(one)?;
    input.push_str(";b ")?;
    input.push_str(other)?;
    input.push(';')?;
    let whole = given(alloc, disk, input.as_str(), false)?;
    let bytewise = given(alloc, disk, input.as_str(), true)?;
    assert!(rt; whole.as_slice() == bytewise.as_slice(), "{one}, {other}");
    let said = str::from_utf8(whole.as_slice()).unwrap_or("");
    assert!(rt;
        said.starts_with("a ") || said.contains(";a "),
        "{one}, {other}"
    );
    assert!(rt; said.contains(";b "), "{one}, {other}");
    Ok(())
}

#[test]
fn commands_follow_each_other(rt: HostRuntime) -> Result<(), Fail> {
    for one in COMMANDS.split('\n') {
        for other in COMMANDS.split('\n') {
            follow(&rt, rt.alloc(), "mail", one, other)?;
            follow(&rt, rt.alloc(), "selected", one, other)?;
            follow(&rt, rt.alloc(), "examined", one, other)?;
        }
    }
    Ok(())
}
