//! Each call of the host failing once.
use crate::calls::call;
use crate::disk::{cut, host_of, shown_paths, text};
use std::alloc::Global;
use std::test::Fail;
use test_tables::{Row, rows};

// `DISK|CALL => PATHS|PATHS`: what may stand after a failed call, and last what stands after none.
const FAILING: &str = r#"
INBOX|create x => INBOX|INBOX x
|create #driver.mbx/x => |x
|create a/b/x => |a/|a/ a/b/|a/ a/b/ a/b/x
a/|create a/b/ => a/|a/ a/b/
|create a/b/ => |a/|a/ a/b/
# files go first, and then the directory
x&y|delete x => x y|y
a/x=*mbx*\r\n|delete a/x => a/ a/x|a/
d/|delete d => d/|
d/.mixindex&d/.mixstatus|delete d => d/ d/.mixindex d/.mixstatus|d/ d/.mixstatus|d/|
# both directories of a name that changes
x|rename x y => x|y
x|rename x a/y => x|a/ x|a/ a/y
d/x|rename d e/f => d/ d/x|d/ d/x e/|e/ e/f/ e/f/x
d/x|rename d/x y => d/ d/x|d/ y
|subscribe a => |.mailboxlist
.mailboxlist=a\nb\n|unsubscribe a => .mailboxlist
# calls that write nothing
d/x|open d/x => d/ d/x
d/x=*mbx*\r\n|open d/x => d/ d/x
.mailboxlist=a\nb\n|lsub "" * => .mailboxlist
a/b/c&d=*mbx*\r\n&e/.mixmeta|list "" * => a/ a/b/ a/b/c d e/ e/.mixmeta
a/b/c&INBOX|list a/ % => INBOX a/ a/b/ a/b/c
"#;

fn last_of(states: &str) -> &str {
    states.rsplit_once('|').unwrap_or(("", states)).1
}

fn is_one_of(states: &str, paths: &str) -> bool {
    states.split('|').any(|state| state == paths)
}

// How many calls of the host there are without a fault.
fn calls_of(alloc: Global, disk: &str, words: &str, states: &str) -> Result<u64, Fail> {
    let mut host = host_of(alloc, disk)?;
    let answer = call(alloc, &mut host, words)?;
    let paths = shown_paths(alloc, &host)?;
    if paths.as_str() != last_of(states) {
        return Err(Fail::new(format_args!("{answer} leaves {paths}")));
    }
    Ok(host.calls())
}

// The call of this number fails.
fn fails_at(alloc: Global, disk: &str, words: &str, states: &str, number: u64) -> Result<(), Fail> {
    let mut host = host_of(alloc, disk)?;
    host.fail_call(number)?;
    let answer = call(alloc, &mut host, words)?;
    if answer.as_str() != "a call on the files failed" || host.file_faults() != 1 {
        return Err(Fail::new(format_args!("{words}: call {number}: {answer}")));
    }
    let paths = shown_paths(alloc, &host)?;
    if is_one_of(states, paths.as_str()) {
        return Ok(());
    }
    Err(Fail::new(format_args!("{words}: call {number} leaves {paths}")))
}

fn fails(alloc: Global, row: &Row) -> Result<(), Fail> {
    let (disk, words) = cut(text(row.text.as_slice())?);
    let states = text(row.expected.as_slice())?;
    for number in 0..calls_of(alloc, disk, words, states)? {
        fails_at(alloc, disk, words, states, number)?;
    }
    Ok(())
}

#[test]
fn a_failed_call_leaves_one_of_few_trees(rt: HostRuntime) -> Result<(), Fail> {
    for row in &rows(rt.alloc(), FAILING)? {
        fails(rt.alloc(), row)?;
    }
    Ok(())
}
