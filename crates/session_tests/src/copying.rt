//! Messages that are copied.
use crate::run::answered;
use std::test::Fail;
use test_tables::rows;

// The disk and the input; what is said, and what stands otherwise afterwards.
const CASES: &str = r#"
# with flags, dates and sizes as the other mailbox keeps them; no session has been told of them there
selected | b COPY 1:2 team/work;c SELECT team/work;d FETCH 1:2 (FLAGS UID INTERNALDATE RFC822.SIZE); => b OK COPY done;* FLAGS (\\Seen \\Answered \\Flagged \\Deleted \\Draft);* 2 EXISTS;* 2 RECENT;* OK [UNSEEN 2] first unseen;* OK [PERMANENTFLAGS (\\Seen \\Answered \\Flagged \\Deleted \\Draft \\*)] flags kept;* OK [UIDNEXT 3] next UID;* OK [UIDVALIDITY 1002] UIDs valid;c OK [READ-WRITE] SELECT done;* 1 FETCH (FLAGS (\\Seen \\Recent) UID 1 INTERNALDATE " 1-Apr-2024 12:00:00 +0000" RFC822.SIZE 23);* 2 FETCH (FLAGS (\\Flagged \\Recent) UID 2 INTERNALDATE " 2-Apr-2024 08:00:00 +0000" RFC822.SIZE 24);d OK FETCH done; *INBOX *team/work
selected | b CREATE #driver.mbx/box;c COPY 1:3 box;d EXAMINE box;e FETCH 1:3 (FLAGS UID INTERNALDATE RFC822.SIZE); => b OK CREATE done;c OK COPY done;* FLAGS (\\Seen \\Answered \\Flagged \\Deleted \\Draft);* 3 EXISTS;* 3 RECENT;* OK [UNSEEN 2] first unseen;* OK [PERMANENTFLAGS ()] flags kept;* OK [UIDNEXT 4] next UID;* OK [UIDVALIDITY 1002] UIDs valid;d OK [READ-ONLY] EXAMINE done;* 1 FETCH (FLAGS (\\Seen \\Recent) UID 1 INTERNALDATE " 1-Apr-2024 12:00:00 +0000" RFC822.SIZE 23);* 2 FETCH (FLAGS (\\Flagged \\Recent) UID 2 INTERNALDATE " 2-Apr-2024 08:00:00 +0000" RFC822.SIZE 24);* 3 FETCH (FLAGS (\\Deleted \\Recent) UID 3 INTERNALDATE " 3-Apr-2024 09:30:00 +0000" RFC822.SIZE 25);e OK FETCH done; +box *INBOX
# behind UID; a UID that isn't there is ignored, and no message is enough
selected | b UID COPY 2,9:12 team/work;c UID COPY 9 team/work;d STATUS team/work (MESSAGES UIDNEXT); => b OK UID COPY done;c OK UID COPY done;* STATUS team/work (MESSAGES 1 UIDNEXT 2);d OK STATUS done; *INBOX *team/work
# keywords by name, those that a message has alone, in the order of the source
selected | b STORE 1 +FLAGS (one two);c STORE 2 +FLAGS (three Work one);d COPY 2 team/work;e EXAMINE team/work;f FETCH 1 FLAGS; => * FLAGS (\\Seen \\Answered \\Flagged \\Deleted \\Draft one two);* 1 FETCH (FLAGS (\\Seen one two));b OK STORE done;* FLAGS (\\Seen \\Answered \\Flagged \\Deleted \\Draft one two three Work);* 2 FETCH (FLAGS (\\Flagged one three Work \\Recent));c OK STORE done;d OK COPY done;* FLAGS (\\Seen \\Answered \\Flagged \\Deleted \\Draft one three Work);* 1 EXISTS;* 1 RECENT;* OK [UNSEEN 1] first unseen;* OK [PERMANENTFLAGS ()] flags kept;* OK [UIDNEXT 2] next UID;* OK [UIDVALIDITY 1004] UIDs valid;e OK [READ-ONLY] EXAMINE done;* 1 FETCH (FLAGS (\\Flagged one three Work \\Recent));f OK FETCH done; *INBOX *team/work
# to the selected mailbox, where they are recent
selected | b COPY 1,3 INBOX;c FETCH 4:5 (UID FLAGS);d UID COPY 4 inbox;e FETCH 6 (UID FLAGS);f STATUS INBOX (MESSAGES RECENT UIDNEXT); => * 5 EXISTS;* 3 RECENT;b OK COPY done;* 4 FETCH (UID 4 FLAGS (\\Seen \\Recent));* 5 FETCH (UID 5 FLAGS (\\Deleted \\Recent));c OK FETCH done;* 6 EXISTS;* 4 RECENT;d OK UID COPY done;* 6 FETCH (UID 6 FLAGS (\\Seen \\Recent));e OK FETCH done;* STATUS INBOX (MESSAGES 6 RECENT 4 UIDNEXT 7);f OK STATUS done; *INBOX
selected | b UID COPY 77 INBOX;c UID COPY 77 absent; => * 3 EXISTS;* 1 RECENT;b OK UID COPY done;c NO [TRYCREATE] no such mailbox; *INBOX
examined | b COPY 1:2 INBOX;c SELECT INBOX; => * 5 EXISTS;* 3 RECENT;b OK COPY done;* FLAGS (\\Seen \\Answered \\Flagged \\Deleted \\Draft);* 5 EXISTS;* 3 RECENT;* OK [UNSEEN 2] first unseen;* OK [PERMANENTFLAGS (\\Seen \\Answered \\Flagged \\Deleted \\Draft \\*)] flags kept;* OK [UIDNEXT 6] next UID;* OK [UIDVALIDITY 1001] UIDs valid;c OK [READ-WRITE] SELECT done; *INBOX
# the source stays as it is; each message once, by rising number
examined | b COPY 3,1,2:1 team/work;c STATUS team/work (MESSAGES UNSEEN); => b OK COPY done;* STATUS team/work (MESSAGES 3 UNSEEN 2);c OK STATUS done; *team/work
# a keyword in other letters is the one that stands
selected | b STORE 2 +FLAGS.SILENT (Work);c APPEND team/work (wORK) {2};hi;d COPY 2 team/work;e EXAMINE team/work;f FETCH 2 FLAGS; => * FLAGS (\\Seen \\Answered \\Flagged \\Deleted \\Draft Work);b OK STORE done;+ Ready;c OK APPEND done;d OK COPY done;* FLAGS (\\Seen \\Answered \\Flagged \\Deleted \\Draft wORK);* 2 EXISTS;* 2 RECENT;* OK [UNSEEN 1] first unseen;* OK [PERMANENTFLAGS ()] flags kept;* OK [UIDNEXT 3] next UID;* OK [UIDVALIDITY 1003] UIDs valid;e OK [READ-ONLY] EXAMINE done;* 2 FETCH (FLAGS (\\Flagged wORK \\Recent));f OK FETCH done; *INBOX *team/work
# from mbx to unix: the date at UTC
mail | a CREATE #driver.mbx/box;b APPEND box "31-Dec-2024 23:59:59 -0100" {2};hi;c EXAMINE box;d COPY 1 team/work;e EXAMINE team/work;f FETCH 1 FAST; => a OK CREATE done;+ Ready;b OK APPEND done;* FLAGS (\\Seen \\Answered \\Flagged \\Deleted \\Draft);* 1 EXISTS;* 1 RECENT;* OK [UNSEEN 1] first unseen;* OK [PERMANENTFLAGS ()] flags kept;* OK [UIDNEXT 2] next UID;* OK [UIDVALIDITY 1001] UIDs valid;c OK [READ-ONLY] EXAMINE done;d OK COPY done;* FLAGS (\\Seen \\Answered \\Flagged \\Deleted \\Draft);* 1 EXISTS;* 1 RECENT;* OK [UNSEEN 1] first unseen;* OK [PERMANENTFLAGS ()] flags kept;* OK [UIDNEXT 2] next UID;* OK [UIDVALIDITY 1004] UIDs valid;e OK [READ-ONLY] EXAMINE done;* 1 FETCH (FLAGS (\\Recent) INTERNALDATE " 1-Jan-2025 00:59:59 +0000" RFC822.SIZE 6);f OK FETCH done; +box *team/work
# refusals in their order
mail | a COPY 1 team/work;b UID COPY 1 a//b; => a BAD no mailbox selected;b BAD no mailbox selected;
selected | b COPY 4 a//b;c COPY 1:4 team/work;d COPY * a//b;e COPY 1 absent;f COPY 1 team;g UID COPY 1 team/absent;h NOOP; => b BAD no such message;c BAD no such message;d NO bad mailbox name;e NO [TRYCREATE] no such mailbox;f NO not a mailbox;g NO [TRYCREATE] no such mailbox;h OK NOOP done; *INBOX
file From a@b Mon Apr  1 12:00:00 2024\nX-IMAP: 5 4294967294\nA: b\n\nc\n\nFrom a@b Mon Apr  1 12:00:00 2024\nX-UID: 3\nA: b\n\nc\n | a EXAMINE INBOX;b COPY 1 INBOX;c NOOP;d UID COPY 99 INBOX; => * FLAGS (\\Seen \\Answered \\Flagged \\Deleted \\Draft);* 1 EXISTS;* 1 RECENT;* OK [UNSEEN 1] first unseen;* OK [PERMANENTFLAGS ()] flags kept;* OK [UIDNEXT 4294967295] next UID;* OK [UIDVALIDITY 5] UIDs valid;a OK [READ-ONLY] EXAMINE done;b NO no UID left;c OK NOOP done;* 1 EXISTS;* 1 RECENT;d OK UID COPY done;
root | a SELECT INBOX;b COPY 1 INBOX;c COPY * INBOX;d UID COPY * INBOX; => * FLAGS (\\Seen \\Answered \\Flagged \\Deleted \\Draft);* 0 EXISTS;* 0 RECENT;* OK [PERMANENTFLAGS (\\Seen \\Answered \\Flagged \\Deleted \\Draft \\*)] flags kept;* OK [UIDNEXT 1] next UID;* OK [UIDVALIDITY 1001] UIDs valid;a OK [READ-WRITE] SELECT done;b BAD no such message;c BAD no such message;* 0 EXISTS;* 0 RECENT;d OK UID COPY done; +INBOX
blocked | a EXAMINE INBOX;b COPY 1 INBOX; => FileFault: * FLAGS (\\Seen \\Answered \\Flagged \\Deleted \\Draft);* 3 EXISTS;* 1 RECENT;* OK [UNSEEN 2] first unseen;* OK [PERMANENTFLAGS ()] flags kept;* OK [UIDNEXT 4] next UID;* OK [UIDVALIDITY 1001] UIDs valid;a OK [READ-ONLY] EXAMINE done;
"#;

#[test]
fn messages_are_copied(rt: HostRuntime) -> Result<(), Fail> {
    for row in rows(rt.alloc(), CASES)?.iter() {
        row.agrees(answered(rt.alloc(), row, false)?.as_slice())?;
        row.agrees(answered(rt.alloc(), row, true)?.as_slice())?;
    }
    Ok(())
}
