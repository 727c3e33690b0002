//! The words of the top call.
use crate::run::{host, outcome, run_words};
use bare_host::BareHost;
use std::alloc::{AllocError, Global};
use std::process::Abort;
use std::test::Fail;
use test_tables::{Row, rows};

// The words, each with a semicolon behind it; the status, and what is said.
const CASES: &str = r#"
# no words, two words, and an empty word
\e => Words: nothing
/m;/m; => Words: nothing
; => Words: nothing
# a word that names a file, one at which nothing stands, one below a file, and one with NUL
/m/INBOX; => Words: nothing
/n; => Words: nothing
/m/INBOX/x; => Words: nothing
/m\0; => Words: nothing
# the longest root, at which a directory stands, and one byte more
/\(1023:x\); => * BYE bye;a OK LOGOUT done; +/\(1023:x\)/INBOX
/\(1024:x\); => Words: nothing
"#;

// At each of the long words a directory stands.
fn host_of(alloc: Global) -> Result<BareHost, AllocError> {
    let mut host = host(alloc, "file hello\n")?;
    host.add_input(b"a LOGOUT\r\n")?;
    let mut root = String::from_str(alloc, "/")?;
    for _ in 1..1024 {
        root.push('x')?;
    }
    host.put_dir(root.as_str())?;
    root.push('x')?;
    host.put_dir(root.as_str())?;
    Ok(host)
}

#[test]
fn words_are_one_root(rt: HostRuntime) -> Result<(), Fail> {
    for row in rows(rt.alloc(), CASES)?.iter() {
        row.agrees(found(&rt, rt.alloc(), row)?.as_slice())?;
    }
    Ok(())
}

// Where the words are refused at most the root was looked up.
fn found(rt: &impl Abort, alloc: Global, row: &Row) -> Result<Vec<u8>, AllocError> {
    let words = words_of(alloc, str::from_utf8(row.text.as_slice()).unwrap_or(""))?;
    let mut host = host_of(alloc)?;
    let status = run_words(alloc, &mut host, words.as_slice());
    assert!(rt; !host.said().is_empty() || host.calls() <= 1);
    outcome(alloc, &host_of(alloc)?, &host, status, "")
}

fn words_of(alloc: Global, text: &str) -> Result<Vec<String>, AllocError> {
    let mut words = Vec::new(alloc);
    let mut word = String::new(alloc);
    for letter in text.chars() {
        if letter == ';' {
            words.push(word)?;
            word = String::new(alloc);
        } else {
            word.push(letter)?;
        }
    }
    Ok(words)
}
