// UIDs at the opening of a store (RFC 3501, section 2.3.1.1).
ghost use Rattle.std.specs.Prelude.{◌≡◌, ◌≤◌, ◌<◌, ◌+◌, ◌∷◌, [], ◌==◌, length};
ghost use Rattle.std.specs.List.{list_all};
ghost use Rattle.mail_types.specs.Opening.{greatest, missing, rise_then_none, given_uids, numbers_from, opened_uids, opened_numbering};

use crate::limits::GREATEST_GIVEN;

/// The UIDVALIDITY and the highest UID of an opened mailbox.
#[derive(Clone, Copy, Debug, PartialEq, Eq)]
pub struct Numbering {
    pub validity: u32,
    pub last: u32,
}

// The greatest of the numbers, or 0.
fn greatest(uids: &[u32]) -> u32
    ensures { result ≡ greatest uids.now }
{
    let mut found = 0;
    for uid in uids {
        found = found.max(*uid);
    }
    found
}

fn one_if_none(uid: u32) -> usize
    ensures { result ≡ missing (uid ∷ []) }
{
    if uid == 0 { 1 } else { 0 }
}

// How many have no UID.
fn count_missing(uids: &[u32]) -> usize
    ensures value { result ≡ missing uids.now }
    ensures few { result ≤ length uids.now }
{
    let mut count = 0;
    for uid in uids {
        count += one_if_none(*uid);
    }
    count
}

fn are_none(uids: &[u32]) -> bool
    ensures { result ≡ list_all (λ later. later == 0) uids.now }
{
    uids.iter().all(|later| *later == 0)
}

// Whether UIDs rise strictly, and then there are none.
fn rise_then_none(uids: &[u32]) -> bool
    ensures { result ≡ rise_then_none 0 uids.now }
{
    let mut above = 0;
    for (place, uid) in uids.iter().enumerate() {
        if *uid == 0 {
            return are_none(&uids[place + 1..]);
        }
        if *uid <= above {
            return false;
        }
        above = *uid;
    }
    true
}

fn give_uid(uid: &mut u32, last: u32) -> u32
    requires { last + missing (uid.old ∷ []) < 4294967296 }
    ensures given { uid.new ∷ [] ≡ given_uids (last + 1) (uid.old ∷ []) }
    ensures last { result ≡ last + missing (uid.old ∷ []) }
{
    if *uid == 0 {
        *uid = last + 1;
        last + 1
    } else {
        last
    }
}

// Those without a UID get the next ones.
fn give_uids(uids: &mut [u32], highest: u32)
    requires { highest + missing uids.old < 4294967296 }
    ensures { uids.new ≡ given_uids (highest + 1) uids.old }
{
    let mut last = highest;
    for uid in uids.iter_mut() {
        last = give_uid(uid, last);
    }
}

// 1 to n.
fn renumber(uids: &mut [u32])
    requires { length uids.old < 4294967296 }
    ensures { uids.new ≡ numbers_from 1 (length uids.old) }
{
    let mut last = 0;
    for uid in uids.iter_mut() {
        last += 1;
        *uid = last;
    }
}

/// Numbers the messages that were read from a store: `uids` has the UIDs as the files have them, 0 for none.
///
/// They last where there is a UIDVALIDITY and they rise, and a run without UIDs at the end takes the next ones.
/// Else all are numbered anew, under the fresh UIDVALIDITY.
pub fn number_uids(validity: Option<u32>, last: u32, uids: &mut [u32], fresh: u32) -> Numbering
    requires { length uids.old < 4294967296 }
    ensures numbering { result ≡ opened_numbering validity last uids.old fresh }
    ensures uids { uids.new ≡ opened_uids validity last uids.old }
{
    let highest = greatest(uids).max(last);
    let missing = count_missing(uids);
    let room = missing == 0 || u64::from(highest) + missing as u64 <= u64::from(GREATEST_GIVEN);
    match validity {
        Some(validity) if rise_then_none(uids) && room => {
            give_uids(uids, highest);
            Numbering {
                validity,
                last: highest + missing as u32,
            }
        }
        _ => {
            let count = uids.len() as u32;
            renumber(uids);
            Numbering {
                validity: fresh,
                last: count,
            }
        }
    }
}
