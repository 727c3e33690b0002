//! Names of mailboxes: they are made, renamed, deleted, subscribed and listed.
use crate::run::answered;
use std::test::Fail;
use test_tables::rows;

// The disk and the input; what is said, and what stands otherwise afterwards.
const CASES: &str = r#"
# LIST: files, directories, what a pattern matches, and the delimiter alone
mail | a LIST "" *;b LIST "" %;c LIST team/ %;d LIST "" inbox;e LIST "" "";f LIST "" "t*k"; => * LIST (\\NoInferiors) "/" INBOX;* LIST (\\Noselect) "/" team;* LIST (\\Noselect) "/" team/old;* LIST (\\NoInferiors) "/" team/work;a OK LIST done;* LIST (\\NoInferiors) "/" INBOX;* LIST (\\Noselect) "/" team;b OK LIST done;* LIST (\\Noselect) "/" team/old;* LIST (\\NoInferiors) "/" team/work;c OK LIST done;* LIST (\\NoInferiors) "/" INBOX;d OK LIST done;* LIST (\\Noselect) "/" "";e OK LIST done;* LIST (\\NoInferiors) "/" team/work;f OK LIST done;
# a name with other bytes than an atom's is quoted
mail | a CREATE "a b";b LIST "" a*; => a OK CREATE done;* LIST (\\NoInferiors) "/" "a b";b OK LIST done; +a b
# CREATE makes parents; a driver is named before the name; what stands is refused
mail | a CREATE x/y;b CREATE x/y;c CREATE x;d CREATE #driver.mbx/box;e CREATE INBOX;f CREATE inbox;g CREATE a//b;h CREATE z/;i CREATE #driver.mix/m; => a OK CREATE done;b NO mailbox exists;c NO mailbox exists;d OK CREATE done;e NO mailbox exists;f NO mailbox exists;g NO bad mailbox name;h OK CREATE done;i NO bad mailbox name; +box +x/ +x/y +z/
# DELETE: a mailbox, an empty directory, one that isn't empty, INBOX, an absent one
mail | a DELETE team/work;b DELETE team;c DELETE team/old;d DELETE team;e DELETE INBOX;f DELETE absent; => a OK DELETE done;b NO directory not empty;c OK DELETE done;d OK DELETE done;e NO INBOX is reserved;f NO no such mailbox; -team/ -team/old/ -team/work
# the selected mailbox isn't deleted or renamed
mail | a CREATE x;b SELECT x;c DELETE x;d RENAME x y;e CLOSE;f DELETE x; => a OK CREATE done;* FLAGS (\\Seen \\Answered \\Flagged \\Deleted \\Draft);* 0 EXISTS;* 0 RECENT;* OK [PERMANENTFLAGS (\\Seen \\Answered \\Flagged \\Deleted \\Draft \\*)] flags kept;* OK [UIDNEXT 1] next UID;* OK [UIDVALIDITY 1001] UIDs valid;b OK [READ-WRITE] SELECT done;c NO mailbox is selected;d NO mailbox is selected;e OK CLOSE done;f OK DELETE done;
# RENAME: a mailbox, a directory with what is in it, over one that stands, an absent one, into itself
mail | a RENAME team/work team/done;b RENAME team crew;c LIST "" *;d RENAME crew INBOX;e RENAME team x;f RENAME crew crew/in; => a OK RENAME done;b OK RENAME done;* LIST (\\NoInferiors) "/" INBOX;* LIST (\\Noselect) "/" crew;* LIST (\\NoInferiors) "/" crew/done;* LIST (\\Noselect) "/" crew/old;c OK LIST done;d NO mailbox exists;e NO no such mailbox;f NO mailbox exists; -team/ -team/old/ -team/work +crew/ +crew/done +crew/old/
# SUBSCRIBE and LSUB: a name that isn't there, a prefix for %, and UNSUBSCRIBE
mail | a SUBSCRIBE x/y;b LSUB "" %;c LSUB "" *;d UNSUBSCRIBE x/y;e LSUB "" *;f UNSUBSCRIBE x/y; => a OK SUBSCRIBE done;* LSUB (\\Noselect) "/" x;b OK LSUB done;* LSUB () "/" x/y;c OK LSUB done;d OK UNSUBSCRIBE done;e OK LSUB done;f NO no such mailbox; +.mailboxlist
"#;

#[test]
fn names_are_answered(rt: HostRuntime) -> Result<(), Fail> {
    for row in rows(rt.alloc(), CASES)?.iter() {
        row.agrees(answered(rt.alloc(), row, false)?.as_slice())?;
        row.agrees(answered(rt.alloc(), row, true)?.as_slice())?;
    }
    Ok(())
}
