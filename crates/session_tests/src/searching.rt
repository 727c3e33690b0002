//! Messages that are searched.
use crate::run::answered;
use std::test::Fail;
use test_tables::rows;

// The disk and the input; what is said, and what stands otherwise afterwards.
const CASES: &str = r#"
# by flags and keywords
selected | b SEARCH ALL;c SEARCH SEEN;d SEARCH UNSEEN FLAGGED;e SEARCH NEW;f SEARCH OLD;g SEARCH RECENT;h SEARCH DELETED;i SEARCH ANSWERED; => * SEARCH 1 2 3;b OK SEARCH done;* SEARCH 1;c OK SEARCH done;* SEARCH 2;d OK SEARCH done;* SEARCH 2;e OK SEARCH done;* SEARCH 1 3;f OK SEARCH done;* SEARCH 2;g OK SEARCH done;* SEARCH 3;h OK SEARCH done;* SEARCH;i OK SEARCH done; *INBOX
selected | b STORE 2 +FLAGS.SILENT (Work);c SEARCH KEYWORD work;d SEARCH UNKEYWORD Work;e SEARCH KEYWORD absent; => * FLAGS (\\Seen \\Answered \\Flagged \\Deleted \\Draft Work);b OK STORE done;* SEARCH 2;c OK SEARCH done;* SEARCH 1 3;d OK SEARCH done;* SEARCH;e OK SEARCH done; *INBOX
# by fields of the header, and by what the text has
selected | b SEARCH SUBJECT TWO;c SEARCH BODY second;d SEARCH BODY subject;e SEARCH TEXT subject;f SEARCH HEADER Subject "";g SEARCH HEADER X-None "";h SEARCH FROM a; => * SEARCH 2;b OK SEARCH done;* SEARCH 2;c OK SEARCH done;* SEARCH;d OK SEARCH done;* SEARCH 1 2 3;e OK SEARCH done;* SEARCH 1 2 3;f OK SEARCH done;* SEARCH;g OK SEARCH done;* SEARCH;h OK SEARCH done; *INBOX
selected | b SEARCH SUBJECT {3};two;c SEARCH TEXT {5};third UNSEEN; => + Ready;* SEARCH 2;b OK SEARCH done;+ Ready;* SEARCH 3;c OK SEARCH done; *INBOX
# by size and by date; a message without a Date field was sent on no day
selected | b SEARCH LARGER 23;c SEARCH SMALLER 24;d SEARCH SINCE 2-Apr-2024;e SEARCH BEFORE 2-Apr-2024;f SEARCH ON "3-Apr-2024";g SEARCH SENTON 1-Apr-2024;h SEARCH NOT SENTSINCE 1-Apr-2024; => * SEARCH 2 3;b OK SEARCH done;* SEARCH 1;c OK SEARCH done;* SEARCH 2 3;d OK SEARCH done;* SEARCH 1;e OK SEARCH done;* SEARCH 3;f OK SEARCH done;* SEARCH;g OK SEARCH done;* SEARCH 1 2 3;h OK SEARCH done; *INBOX
file From a@b Mon Apr  1 12:00:00 2024\nDate: Tue, 2 Apr 2024 23:30:00 -0200\nSubject: far\n folded\n\nx\n | a EXAMINE INBOX;b SEARCH SENTON 2-Apr-2024 SUBJECT "far folded";c SEARCH SENTBEFORE 2-Apr-2024;d SEARCH ON 1-Apr-2024; => * FLAGS (\\Seen \\Answered \\Flagged \\Deleted \\Draft);* 1 EXISTS;* 1 RECENT;* OK [UNSEEN 1] first unseen;* OK [PERMANENTFLAGS ()] flags kept;* OK [UIDNEXT 2] next UID;* OK [UIDVALIDITY 1001] UIDs valid;a OK [READ-ONLY] EXAMINE done;* SEARCH 1;b OK SEARCH done;* SEARCH;c OK SEARCH done;* SEARCH 1;d OK SEARCH done;
# keys in keys
selected | b SEARCH NOT SUBJECT two;c SEARCH OR SEEN DELETED;d SEARCH OR (SEEN FLAGGED) NOT (1:2);e SEARCH NOT NOT UNSEEN; => * SEARCH 1 3;b OK SEARCH done;* SEARCH 1 3;c OK SEARCH done;* SEARCH 3;d OK SEARCH done;* SEARCH 2 3;e OK SEARCH done; *INBOX
selected | b SEARCH \(98:NOT \)ALL;c SEARCH \(99:NOT \)ALL;d SEARCH \(100:NOT \)ALL; => * SEARCH 1 2 3;b OK SEARCH done;* SEARCH;c OK SEARCH done;d BAD argument not understood; *INBOX
# numbers that aren't there are passed over; `*` is the last message, and none where there is none
selected | b SEARCH 2:*;c SEARCH *;d SEARCH 9;e SEARCH 9:*;f SEARCH UID 3:2,77;g UID SEARCH UID *; => * SEARCH 2 3;b OK SEARCH done;* SEARCH 3;c OK SEARCH done;* SEARCH;d OK SEARCH done;* SEARCH 3;e OK SEARCH done;* SEARCH 2 3;f OK SEARCH done;* SEARCH 3;g OK UID SEARCH done; *INBOX
root | a SELECT INBOX;b SEARCH ALL;c SEARCH *;d UID SEARCH *:1 NOT TEXT x; => * FLAGS (\\Seen \\Answered \\Flagged \\Deleted \\Draft);* 0 EXISTS;* 0 RECENT;* OK [PERMANENTFLAGS (\\Seen \\Answered \\Flagged \\Deleted \\Draft \\*)] flags kept;* OK [UIDNEXT 1] next UID;* OK [UIDVALIDITY 1001] UIDs valid;a OK [READ-WRITE] SELECT done;* SEARCH;b OK SEARCH done;* SEARCH;c OK SEARCH done;* SEARCH;d OK UID SEARCH done; +INBOX
# UIDs and numbers behind an EXPUNGE
selected | b STORE 1 +FLAGS.SILENT (\\Deleted);c EXPUNGE;d SEARCH ALL;e UID SEARCH ALL;f UID SEARCH 1;g UID SEARCH UID 1; => b OK STORE done;* 1 EXPUNGE;* 2 EXPUNGE;c OK EXPUNGE done;* SEARCH 1;d OK SEARCH done;* SEARCH 2;e OK UID SEARCH done;* SEARCH 2;f OK UID SEARCH done;* SEARCH;g OK UID SEARCH done; *INBOX
# the charset; no mailbox is selected
selected | b SEARCH CHARSET us-ascii TEXT second;c SEARCH CHARSET UTF-8 ALL;d UID SEARCH CHARSET KOI8-R ALL; => * SEARCH 2;b OK SEARCH done;c NO [BADCHARSET (US-ASCII)] charset not known;d NO [BADCHARSET (US-ASCII)] charset not known; *INBOX
mail | a SEARCH ALL;b UID SEARCH CHARSET x ALL; => a BAD no mailbox selected;b BAD no mailbox selected;
"#;

#[test]
fn messages_are_searched(rt: HostRuntime) -> Result<(), Fail> {
    for row in rows(rt.alloc(), CASES)?.iter() {
        row.agrees(answered(rt.alloc(), row, false)?.as_slice())?;
        row.agrees(answered(rt.alloc(), row, true)?.as_slice())?;
    }
    Ok(())
}
