//! Lines, tags and the commands that need no mailbox, each run also with a byte for each read of the input.
use crate::run::answered;
use std::test::Fail;
use test_tables::rows;

// The disk and the input; what is said, and what stands otherwise afterwards.
const CASES: &str = r#"
# a missing inbox is made, where nothing is asked too
root |  =>  +INBOX
root | a STATUS INBOX (MESSAGES);b LOGOUT; => * STATUS INBOX (MESSAGES 0);a OK STATUS done;* BYE bye;b OK LOGOUT done; +INBOX
file  | a STATUS INBOX (MESSAGES);b LOGOUT; => * STATUS INBOX (MESSAGES 0);a OK STATUS done;* BYE bye;b OK LOGOUT done;
# any case
file  | a capability;b Noop;c logout; => * CAPABILITY IMAP4rev1;a OK CAPABILITY done;b OK NOOP done;* BYE bye;c OK LOGOUT done;
# passwords are not read
file  | a STARTTLS;b LOGIN me (secret;c AUTHENTICATE PLAIN; => a NO STARTTLS not available;b NO LOGIN not available;c NO AUTHENTICATE not available;
# the input ends inside a line, between two lines, behind a CR
file  | a NOOP;b LOG => Cut: a OK NOOP done;
file  | a NOOP; => a OK NOOP done;
file  | a LOGOUT\r => Cut: 
# nothing is answered behind LOGOUT
file  | a LOGOUT;b LOGOUT;c => * BYE bye;a OK LOGOUT done;
# no tag: an empty line, one of 65 bytes, one with a plus
file  | ; => * BAD no tag;
file  | \(65:a\) NOOP; => * BAD no tag;
file  | \(64:a\) NOOP; => \(64:a\) OK NOOP done;
file  | a+b NOOP;]a NOOP; => * BAD no tag;* BAD no tag;
# no command, an unknown one, an argument that is missing or not understood, and text behind
file  | LOGOUT; => LOGOUT BAD no command;
file  | a XYZZY;b SELECT;c SELECT (;d NOOP x; => a BAD unknown command;b BAD argument missing;c BAD argument not understood;d BAD text after the command;
file  | a FETCH 0 FLAGS;b FETCH 4294967296 FLAGS;c NO\0OP; => a BAD number out of range;b BAD number out of range;c BAD NUL in the command;
# one CR belongs to the line end, and a CR or LF alone is a byte of the line
file  | a NOOP\r;b NOOP\nc NOOP;d NOOP\re; => a BAD text after the command;b BAD text after the command;d BAD text after the command;
# a literal is announced, and a large one is not
file  | a SELECT {5};INBOX;b SELECT {16777217};c NOOP; => + Ready;* FLAGS (\\Seen \\Answered \\Flagged \\Deleted \\Draft);* 0 EXISTS;* 0 RECENT;* OK [PERMANENTFLAGS (\\Seen \\Answered \\Flagged \\Deleted \\Draft \\*)] flags kept;* OK [UIDNEXT 1] next UID;* OK [UIDVALIDITY 1001] UIDs valid;a OK [READ-WRITE] SELECT done;b NO literal too large;c OK NOOP done;
# a literal holds what it says, and a line goes on behind it
file  | a LIST {0}; {1};%; => + Ready;+ Ready;* LIST (\\NoInferiors) "/" INBOX;a OK LIST done;
# no mailbox is selected
file  | a CHECK;b CLOSE;c EXPUNGE;d FETCH 1 FLAGS;e STORE 1 FLAGS ();f UID FETCH 1 FLAGS; => a BAD no mailbox selected;b BAD no mailbox selected;c BAD no mailbox selected;d BAD no mailbox selected;e BAD no mailbox selected;f BAD no mailbox selected;
# what isn't built
file  | b FETCH 1 BODY[];c FETCH 1 (FLAGS ENVELOPE); => b BAD not built;c BAD not built;
# the first reason or refusal counts
mail | a FROB;b FETCH 1 FLAGS;c SELECT ../x;d DELETE inbox;e NOOP x; => a BAD unknown command;b BAD no mailbox selected;c NO bad mailbox name;d NO INBOX is reserved;e BAD text after the command;
# an inbox that isn't a mailbox
file hello\n | a SELECT INBOX;b STATUS INBOX (MESSAGES); => a NO not a mailbox;b NO not a mailbox;
dir | a SELECT INBOX;b STATUS INBOX (MESSAGES); => a NO not a mailbox;b NO not a mailbox;
# internal data is read as such
file From a@b Mon Apr  1 12:00:00 2024\nX-IMAP: 5 9\nA: b\n\nc\n | a STATUS INBOX (UIDVALIDITY UIDNEXT MESSAGES); => * STATUS INBOX (UIDVALIDITY 5 UIDNEXT 10 MESSAGES 0);a OK STATUS done;
"#;

#[test]
fn lines_are_answered(rt: HostRuntime) -> Result<(), Fail> {
    for row in rows(rt.alloc(), CASES)?.iter() {
        row.agrees(answered(rt.alloc(), row, false)?.as_slice())?;
        row.agrees(answered(rt.alloc(), row, true)?.as_slice())?;
    }
    Ok(())
}
