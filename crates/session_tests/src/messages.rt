//! Messages of mailboxes: they are counted, said, flagged and removed.
use crate::run::answered;
use std::test::Fail;
use test_tables::rows;

// The disk and the input; what is said, and what stands otherwise afterwards.
const CASES: &str = r#"
# SELECT says what a mailbox has, and its messages are old afterwards
mail | a SELECT INBOX; => * FLAGS (\\Seen \\Answered \\Flagged \\Deleted \\Draft);* 3 EXISTS;* 1 RECENT;* OK [UNSEEN 2] first unseen;* OK [PERMANENTFLAGS (\\Seen \\Answered \\Flagged \\Deleted \\Draft \\*)] flags kept;* OK [UIDNEXT 4] next UID;* OK [UIDVALIDITY 1001] UIDs valid;a OK [READ-WRITE] SELECT done; *INBOX
# a mailbox that is told of its messages is not told again
mail | a SELECT INBOX;b SELECT INBOX; => * FLAGS (\\Seen \\Answered \\Flagged \\Deleted \\Draft);* 3 EXISTS;* 1 RECENT;* OK [UNSEEN 2] first unseen;* OK [PERMANENTFLAGS (\\Seen \\Answered \\Flagged \\Deleted \\Draft \\*)] flags kept;* OK [UIDNEXT 4] next UID;* OK [UIDVALIDITY 1001] UIDs valid;a OK [READ-WRITE] SELECT done;* FLAGS (\\Seen \\Answered \\Flagged \\Deleted \\Draft);* 3 EXISTS;* 0 RECENT;* OK [UNSEEN 2] first unseen;* OK [PERMANENTFLAGS (\\Seen \\Answered \\Flagged \\Deleted \\Draft \\*)] flags kept;* OK [UIDNEXT 4] next UID;* OK [UIDVALIDITY 1001] UIDs valid;b OK [READ-WRITE] SELECT done; *INBOX
# EXAMINE says it too, and writes nothing; letters of INBOX have any case
mail | a EXAMINE inbox; => * FLAGS (\\Seen \\Answered \\Flagged \\Deleted \\Draft);* 3 EXISTS;* 1 RECENT;* OK [UNSEEN 2] first unseen;* OK [PERMANENTFLAGS ()] flags kept;* OK [UIDNEXT 4] next UID;* OK [UIDVALIDITY 1001] UIDs valid;a OK [READ-ONLY] EXAMINE done;
# after a refusal none is selected
selected | b SELECT absent;c CHECK; => b NO no such mailbox;c BAD no mailbox selected; *INBOX
# CHECK needs a selected mailbox, and CLOSE leaves it
examined | b CHECK;c CLOSE;d CHECK; => b OK CHECK done;c OK CLOSE done;d BAD no mailbox selected;
# STATUS from the disk, and of the selected mailbox from the session
mail | a STATUS INBOX (MESSAGES RECENT UIDNEXT UIDVALIDITY UNSEEN); => * STATUS INBOX (MESSAGES 3 RECENT 1 UIDNEXT 4 UIDVALIDITY 1001 UNSEEN 2);a OK STATUS done;
selected | b STATUS inbox (UNSEEN RECENT); => * STATUS INBOX (UNSEEN 2 RECENT 1);b OK STATUS done; *INBOX
mail | a STATUS team (MESSAGES);b STATUS absent (MESSAGES);c STATUS a//b (MESSAGES); => a NO not a mailbox;b NO no such mailbox;c NO bad mailbox name;
# FETCH: items in the order asked, once, and UID first where it isn't asked
examined | b FETCH 1:* (FLAGS UID FLAGS RFC822.SIZE INTERNALDATE);c UID FETCH 3,1 FLAGS;d UID FETCH 2 (RFC822.SIZE UID);e FETCH 2 FAST; => * 1 FETCH (FLAGS (\\Seen) UID 1 RFC822.SIZE 23 INTERNALDATE " 1-Apr-2024 12:00:00 +0000");* 2 FETCH (FLAGS (\\Flagged \\Recent) UID 2 RFC822.SIZE 24 INTERNALDATE " 2-Apr-2024 08:00:00 +0000");* 3 FETCH (FLAGS (\\Deleted) UID 3 RFC822.SIZE 25 INTERNALDATE " 3-Apr-2024 09:30:00 +0000");b OK FETCH done;* 1 FETCH (UID 1 FLAGS (\\Seen));* 3 FETCH (UID 3 FLAGS (\\Deleted));c OK UID FETCH done;* 2 FETCH (RFC822.SIZE 24 UID 2);d OK UID FETCH done;* 2 FETCH (FLAGS (\\Flagged \\Recent) INTERNALDATE " 2-Apr-2024 08:00:00 +0000" RFC822.SIZE 24);e OK FETCH done;
# a number past the last message, an UID that isn't there
examined | b FETCH 4 FLAGS;c UID FETCH 4:5 FLAGS;d FETCH 2:4 FLAGS;e STORE 4 FLAGS (); => b BAD no such message;c OK UID FETCH done;d BAD no such message;e BAD no such message;
# STORE: the three modes, keywords, silence, UIDs
selected | b STORE 1 +FLAGS (\\Flagged Work);c STORE 1 -FLAGS.SILENT \\Seen;d STORE 1 FLAGS (\\Draft);e UID STORE 2:3 +FLAGS (\\Answered);f SELECT INBOX;g FETCH 1:3 FLAGS; => * FLAGS (\\Seen \\Answered \\Flagged \\Deleted \\Draft Work);* 1 FETCH (FLAGS (\\Seen \\Flagged Work));b OK STORE done;c OK STORE done;* 1 FETCH (FLAGS (\\Draft));d OK STORE done;* 2 FETCH (UID 2 FLAGS (\\Answered \\Flagged \\Recent));* 3 FETCH (UID 3 FLAGS (\\Answered \\Deleted));e OK UID STORE done;* FLAGS (\\Seen \\Answered \\Flagged \\Deleted \\Draft Work);* 3 EXISTS;* 0 RECENT;* OK [UNSEEN 1] first unseen;* OK [PERMANENTFLAGS (\\Seen \\Answered \\Flagged \\Deleted \\Draft Work \\*)] flags kept;* OK [UIDNEXT 4] next UID;* OK [UIDVALIDITY 1001] UIDs valid;f OK [READ-WRITE] SELECT done;* 1 FETCH (FLAGS (\\Draft));* 2 FETCH (FLAGS (\\Answered \\Flagged));* 3 FETCH (FLAGS (\\Answered \\Deleted));g OK FETCH done; *INBOX
# a flag set again
selected | b STORE 1 +FLAGS \\Seen; => * 1 FETCH (FLAGS (\\Seen));b OK STORE done; *INBOX
# nothing is changed under EXAMINE
examined | b STORE 1 +FLAGS \\Flagged;c EXPUNGE;d CLOSE; => b NO mailbox is read-only;c NO mailbox is read-only;d OK CLOSE done;
# EXPUNGE: the number of each line is less by one for each line before
selected | b STORE 1:2 +FLAGS.SILENT \\Deleted;c EXPUNGE;d STATUS INBOX (MESSAGES RECENT UIDNEXT); => b OK STORE done;* 1 EXPUNGE;* 1 EXPUNGE;* 1 EXPUNGE;c OK EXPUNGE done;* STATUS INBOX (MESSAGES 0 RECENT 0 UIDNEXT 4);d OK STATUS done; *INBOX
selected | b STORE 1 +FLAGS.SILENT \\Deleted;c EXPUNGE;d FETCH 1 UID;e EXPUNGE; => b OK STORE done;* 1 EXPUNGE;* 2 EXPUNGE;c OK EXPUNGE done;* 1 FETCH (UID 2);d OK FETCH done;e OK EXPUNGE done; *INBOX
selected | b STORE 2 +FLAGS.SILENT \\Deleted;c EXPUNGE; => b OK STORE done;* 2 EXPUNGE;* 2 EXPUNGE;c OK EXPUNGE done; *INBOX
# CLOSE removes under SELECT
selected | b CLOSE;c CHECK;d EXAMINE INBOX;e FETCH 1:* UID; => b OK CLOSE done;c BAD no mailbox selected;* FLAGS (\\Seen \\Answered \\Flagged \\Deleted \\Draft);* 2 EXISTS;* 0 RECENT;* OK [UNSEEN 2] first unseen;* OK [PERMANENTFLAGS ()] flags kept;* OK [UIDNEXT 4] next UID;* OK [UIDVALIDITY 1001] UIDs valid;d OK [READ-ONLY] EXAMINE done;* 1 FETCH (UID 1);* 2 FETCH (UID 2);e OK FETCH done; *INBOX
# a line that begins with From and has no date is text
file From a@b Mon Apr  1 12:00:00 2024\nSubject: x\n\nFrom here on\nok\n | a STATUS INBOX (MESSAGES); => * STATUS INBOX (MESSAGES 1);a OK STATUS done;
file From a@b Mon Apr  1 12:00:00 2024\nSubject: x\n\nFrom c@d Tue Apr  2 08:00:00 2024\nok\n | a STATUS INBOX (MESSAGES); => * STATUS INBOX (MESSAGES 2);a OK STATUS done;
# an mbx file with 5 bytes of 6, alone and behind a whole record
file *mbx*\r\n0000000100000000\r\n\(30:\r\n\)\(1963:\0\) 2-Apr-2024 08:00:00 +0200,6;000000000000-00000001\r\nhello | a SELECT INBOX; => a NO ill-formed mbx store after 0 records;
file *mbx*\r\n0000000100000000\r\n\(30:\r\n\)\(1963:\0\) 2-Apr-2024 08:00:00 +0200,2;000000000000-00000001\r\nhi 2-Apr-2024 08:00:00 +0200,6;000000000000-00000002\r\nhello | a SELECT INBOX; => a NO ill-formed mbx store after 1 records;
# a directory at the name by which a file is replaced
blocked | a SELECT INBOX; => FileFault: 
# a mailbox that is made again has another UIDVALIDITY
mail | a CREATE x;b STATUS x (UIDVALIDITY);c DELETE x;d CREATE x;e STATUS x (UIDVALIDITY); => a OK CREATE done;* STATUS x (UIDVALIDITY 1001);b OK STATUS done;c OK DELETE done;d OK CREATE done;* STATUS x (UIDVALIDITY 1004);e OK STATUS done; +x
# keywords that find no place are dropped
selected | b STORE 1 FLAGS.SILENT (\(29:k\) a b c d e f g h i j k l m n o p q r s t u v w x y z aa ab ac);c STORE 1 +FLAGS ad; => * FLAGS (\\Seen \\Answered \\Flagged \\Deleted \\Draft \(29:k\) a b c d e f g h i j k l m n o p q r s t u v w x y z aa ab ac);b OK STORE done;* 1 FETCH (FLAGS (\(29:k\) a b c d e f g h i j k l m n o p q r s t u v w x y z aa ab ac));c OK STORE done; *INBOX
"#;

#[test]
fn messages_are_said_and_changed(rt: HostRuntime) -> Result<(), Fail> {
    for row in rows(rt.alloc(), CASES)?.iter() {
        row.agrees(answered(rt.alloc(), row, false)?.as_slice())?;
        row.agrees(answered(rt.alloc(), row, true)?.as_slice())?;
    }
    Ok(())
}
