//! Messages that are added to mailboxes.
use crate::run::answered;
use std::test::Fail;
use test_tables::rows;

// The disk and the input; what is said, and what stands otherwise afterwards.
const CASES: &str = r#"
# to a mailbox that isn't selected: its flags, its keywords, its date
mail | a APPEND team/work (\\Seen Work) " 1-Apr-2024 12:00:00 +0200" {14};Subject: q;;;b SELECT team/work;c FETCH 1 (FLAGS UID INTERNALDATE RFC822.SIZE); => + Ready;a OK APPEND done;* FLAGS (\\Seen \\Answered \\Flagged \\Deleted \\Draft Work);* 1 EXISTS;* 1 RECENT;* OK [PERMANENTFLAGS (\\Seen \\Answered \\Flagged \\Deleted \\Draft Work \\*)] flags kept;* OK [UIDNEXT 2] next UID;* OK [UIDVALIDITY 1001] UIDs valid;b OK [READ-WRITE] SELECT done;* 1 FETCH (FLAGS (\\Seen Work \\Recent) UID 1 INTERNALDATE " 1-Apr-2024 10:00:00 +0000" RFC822.SIZE 14);c OK FETCH done; *team/work
# to the selected one, where it is recent, also for the next UID
selected | b APPEND inbox (\\Flagged new) {14};Subject: q;;;c FETCH 4 (FLAGS UID);d STATUS INBOX (MESSAGES RECENT UIDNEXT UNSEEN);e EXPUNGE;f FETCH 2:3 (FLAGS UID); => + Ready;* 4 EXISTS;* 2 RECENT;b OK APPEND done;* 4 FETCH (FLAGS (\\Flagged new \\Recent) UID 4);c OK FETCH done;* STATUS INBOX (MESSAGES 4 RECENT 2 UIDNEXT 5 UNSEEN 3);d OK STATUS done;* 3 EXPUNGE;e OK EXPUNGE done;* 2 FETCH (FLAGS (\\Flagged \\Recent) UID 2);* 3 FETCH (FLAGS (\\Flagged new \\Recent) UID 4);f OK FETCH done; *INBOX
# of two messages, one after the other
selected | b APPEND INBOX {2};hi;c APPEND INBOX {2};ho;d FETCH 3:5 (UID FLAGS); => + Ready;* 4 EXISTS;* 2 RECENT;b OK APPEND done;+ Ready;* 5 EXISTS;* 3 RECENT;c OK APPEND done;* 3 FETCH (UID 3 FLAGS (\\Deleted));* 4 FETCH (UID 4 FLAGS (\\Recent));* 5 FETCH (UID 5 FLAGS (\\Recent));d OK FETCH done; *INBOX
# under EXAMINE no session has been told of it
examined | b APPEND INBOX {2};hi;c SELECT INBOX; => + Ready;* 4 EXISTS;* 2 RECENT;b OK APPEND done;* FLAGS (\\Seen \\Answered \\Flagged \\Deleted \\Draft);* 4 EXISTS;* 2 RECENT;* OK [UNSEEN 2] first unseen;* OK [PERMANENTFLAGS (\\Seen \\Answered \\Flagged \\Deleted \\Draft \\*)] flags kept;* OK [UIDNEXT 5] next UID;* OK [UIDVALIDITY 1001] UIDs valid;c OK [READ-WRITE] SELECT done; *INBOX
selected | b APPEND INBOX {2};hi;c SELECT INBOX; => + Ready;* 4 EXISTS;* 2 RECENT;b OK APPEND done;* FLAGS (\\Seen \\Answered \\Flagged \\Deleted \\Draft);* 4 EXISTS;* 0 RECENT;* OK [UNSEEN 2] first unseen;* OK [PERMANENTFLAGS (\\Seen \\Answered \\Flagged \\Deleted \\Draft \\*)] flags kept;* OK [UIDNEXT 5] next UID;* OK [UIDVALIDITY 1001] UIDs valid;c OK [READ-WRITE] SELECT done; *INBOX
# without a date it takes the session's moment, and a date is kept with its zone where the driver keeps it
mail | a APPEND team/work {2};hi;b EXAMINE team/work;c FETCH 1 FAST; => + Ready;a OK APPEND done;* FLAGS (\\Seen \\Answered \\Flagged \\Deleted \\Draft);* 1 EXISTS;* 1 RECENT;* OK [UNSEEN 1] first unseen;* OK [PERMANENTFLAGS ()] flags kept;* OK [UIDNEXT 2] next UID;* OK [UIDVALIDITY 1001] UIDs valid;b OK [READ-ONLY] EXAMINE done;* 1 FETCH (FLAGS (\\Recent) INTERNALDATE " 1-Jan-1970 00:16:40 +0000" RFC822.SIZE 6);c OK FETCH done; *team/work
mail | a APPEND team/work "31-Dec-2024 23:59:59 -0100" {2};hi;b EXAMINE team/work;c FETCH 1 FAST; => + Ready;a OK APPEND done;* FLAGS (\\Seen \\Answered \\Flagged \\Deleted \\Draft);* 1 EXISTS;* 1 RECENT;* OK [UNSEEN 1] first unseen;* OK [PERMANENTFLAGS ()] flags kept;* OK [UIDNEXT 2] next UID;* OK [UIDVALIDITY 1001] UIDs valid;b OK [READ-ONLY] EXAMINE done;* 1 FETCH (FLAGS (\\Recent) INTERNALDATE " 1-Jan-2025 00:59:59 +0000" RFC822.SIZE 6);c OK FETCH done; *team/work
mail | a CREATE #driver.mbx/box;b APPEND box "31-Dec-2024 23:59:59 -0100" {2};hi;c EXAMINE box;d FETCH 1 FAST; => a OK CREATE done;+ Ready;b OK APPEND done;* FLAGS (\\Seen \\Answered \\Flagged \\Deleted \\Draft);* 1 EXISTS;* 1 RECENT;* OK [UNSEEN 1] first unseen;* OK [PERMANENTFLAGS ()] flags kept;* OK [UIDNEXT 2] next UID;* OK [UIDVALIDITY 1001] UIDs valid;c OK [READ-ONLY] EXAMINE done;* 1 FETCH (FLAGS (\\Recent) INTERNALDATE "31-Dec-2024 23:59:59 -0100" RFC822.SIZE 2);d OK FETCH done; +box
# one that is absent may be created first
mail | a APPEND absent {2};hi;b APPEND team/absent {2};hi;c CREATE absent;d APPEND absent {2};hi;e STATUS absent (MESSAGES); => + Ready;a NO [TRYCREATE] no such mailbox;+ Ready;b NO [TRYCREATE] no such mailbox;c OK CREATE done;+ Ready;d OK APPEND done;* STATUS absent (MESSAGES 1);e OK STATUS done; +absent
# refusals, each behind the literal
mail | a APPEND a//b {2};hi;b APPEND team {2};hi;c APPEND INBOX {16777217};d APPEND INBOX hi;e APPEND INBOX;f APPEND INBOX (\\Recent) {2};hi; => + Ready;a NO bad mailbox name;+ Ready;b NO not a mailbox;c NO literal too large;d BAD argument not understood;e BAD argument missing;+ Ready;f BAD argument not understood;
mail | a APPEND INBOX (\\Seen) " 1-Feb-2024 25:00:00 +0000" {2};hi;b APPEND INBOX (\\Seen) {2};hi ;c NOOP; => + Ready;a BAD argument not understood;+ Ready;b BAD text after the command;c OK NOOP done;
file hello\n | a APPEND INBOX {2};hi; => + Ready;a NO not a mailbox;
blocked | a APPEND INBOX {2};hi; => FileFault: + Ready;
# no UID is left
file From a@b Mon Apr  1 12:00:00 2024\nX-IMAP: 5 4294967294\nA: b\n\nc\n | a APPEND INBOX {2};hi;b STATUS INBOX (UIDNEXT);c APPEND INBOX {2};hi;d STATUS INBOX (MESSAGES);e SELECT INBOX;f APPEND INBOX {2};hi;g NOOP;h FETCH 1 UID; => + Ready;a NO no UID left;* STATUS INBOX (UIDNEXT 4294967295);b OK STATUS done;+ Ready;c NO no UID left;* STATUS INBOX (MESSAGES 0);d OK STATUS done;* FLAGS (\\Seen \\Answered \\Flagged \\Deleted \\Draft);* 0 EXISTS;* 0 RECENT;* OK [PERMANENTFLAGS (\\Seen \\Answered \\Flagged \\Deleted \\Draft \\*)] flags kept;* OK [UIDNEXT 4294967295] next UID;* OK [UIDVALIDITY 5] UIDs valid;e OK [READ-WRITE] SELECT done;+ Ready;f NO no UID left;g OK NOOP done;h BAD no such message;
# a UID isn't given again, also where the last message is gone
selected | b STORE 1:3 +FLAGS.SILENT (\\Deleted);c EXPUNGE;d APPEND INBOX {2};hi;e FETCH 1 UID;f STORE 1 +FLAGS.SILENT (\\Deleted);g CLOSE;h APPEND INBOX {2};ho;i SELECT INBOX;j FETCH 1 UID; => b OK STORE done;* 1 EXPUNGE;* 1 EXPUNGE;* 1 EXPUNGE;c OK EXPUNGE done;+ Ready;* 1 EXISTS;* 1 RECENT;d OK APPEND done;* 1 FETCH (UID 4);e OK FETCH done;f OK STORE done;g OK CLOSE done;+ Ready;h OK APPEND done;* FLAGS (\\Seen \\Answered \\Flagged \\Deleted \\Draft);* 1 EXISTS;* 1 RECENT;* OK [UNSEEN 1] first unseen;* OK [PERMANENTFLAGS (\\Seen \\Answered \\Flagged \\Deleted \\Draft \\*)] flags kept;* OK [UIDNEXT 6] next UID;* OK [UIDVALIDITY 1001] UIDs valid;i OK [READ-WRITE] SELECT done;* 1 FETCH (UID 5);j OK FETCH done; *INBOX
# a literal of no bytes, and a text that begins with a line of its own
mail | a APPEND team/work {0};;b APPEND team/work {16};From here on;ok;c STATUS team/work (MESSAGES);d EXAMINE team/work;e FETCH 1:2 RFC822.SIZE; => + Ready;a OK APPEND done;+ Ready;b OK APPEND done;* STATUS team/work (MESSAGES 2);c OK STATUS done;* FLAGS (\\Seen \\Answered \\Flagged \\Deleted \\Draft);* 2 EXISTS;* 2 RECENT;* OK [UNSEEN 1] first unseen;* OK [PERMANENTFLAGS ()] flags kept;* OK [UIDNEXT 3] next UID;* OK [UIDVALIDITY 1001] UIDs valid;d OK [READ-ONLY] EXAMINE done;* 1 FETCH (RFC822.SIZE 2);* 2 FETCH (RFC822.SIZE 20);e OK FETCH done; *team/work
# keywords that find no place are dropped
mail | a APPEND team/work (\(29:k\) a b c d e f g h i j k l m n o p q r s t u v w x y z aa ab ac ad) {2};hi;b EXAMINE team/work;c FETCH 1 FLAGS; => + Ready;a OK APPEND done;* FLAGS (\\Seen \\Answered \\Flagged \\Deleted \\Draft kkkkkkkkkkkkkkkkkkkkkkkkkkkkk a b c d e f g h i j k l m n o p q r s t u v w x y z aa ab ac);* 1 EXISTS;* 1 RECENT;* OK [UNSEEN 1] first unseen;* OK [PERMANENTFLAGS ()] flags kept;* OK [UIDNEXT 2] next UID;* OK [UIDVALIDITY 1001] UIDs valid;b OK [READ-ONLY] EXAMINE done;* 1 FETCH (FLAGS (kkkkkkkkkkkkkkkkkkkkkkkkkkkkk a b c d e f g h i j k l m n o p q r s t u v w x y z aa ab ac \\Recent));c OK FETCH done; *team/work
# the first of two selected names counts as it is, and INBOX in any letters
selected | b SELECT team/work;c APPEND INBOX {2};hi;d APPEND team/work {2};ho;e NOOP;f STATUS INBOX (MESSAGES RECENT); => * FLAGS (\\Seen \\Answered \\Flagged \\Deleted \\Draft);* 0 EXISTS;* 0 RECENT;* OK [PERMANENTFLAGS (\\Seen \\Answered \\Flagged \\Deleted \\Draft \\*)] flags kept;* OK [UIDNEXT 1] next UID;* OK [UIDVALIDITY 1002] UIDs valid;b OK [READ-WRITE] SELECT done;+ Ready;c OK APPEND done;+ Ready;* 1 EXISTS;* 1 RECENT;d OK APPEND done;e OK NOOP done;* STATUS INBOX (MESSAGES 4 RECENT 1);f OK STATUS done; *INBOX *team/work
"#;

#[test]
fn messages_are_added(rt: HostRuntime) -> Result<(), Fail> {
    for row in rows(rt.alloc(), CASES)?.iter() {
        row.agrees(answered(rt.alloc(), row, false)?.as_slice())?;
        row.agrees(answered(rt.alloc(), row, true)?.as_slice())?;
    }
    Ok(())
}
