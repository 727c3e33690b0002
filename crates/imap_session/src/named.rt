// The messages that a set names.
ghost use Rattle.std.specs.Prelude.{◌≡◌, ◌≤◌, ◌<◌, length, map, false, if◌then◌else◌, IfOk};
ghost use Rattle.mail_types.specs.Limits.{record_limit};
ghost use Rattle.mail_types.specs.Opening.{greatest};
ghost use Rattle.store_trait.specs.declared.store.Info.{Info as ToldInfo};
ghost use Rattle.imap_session.specs.Sets.{number_at, largest, named_places, is_past, names_past};

use imap_arguments::{End, Set};
use std::alloc::{AllocError, Global};
use store_trait::Info;

/// The number by which a command names the message at a place.
pub fn number_at(uid: bool, place: usize, info: &Info) -> u32
    requires { place < record_limit }
    ensures { result ≡ number_at uid place info.now }
{
    if uid { info.uid } else { place as u32 + 1 }
}

/// The greatest UID, 0 where there is none.
pub fn greatest_uid(infos: &[Info]) -> u32
    ensures { result ≡ greatest (map (λ (i : ToldInfo). i.uid) infos.now) }
{
    let mut most = 0;
    for info in infos {
        most = info.uid.max(most);
    }
    most
}

// What `*` stands for.
fn largest(uid: bool, infos: &[Info]) -> u32
    requires { length infos.now ≤ record_limit }
    ensures { result ≡ largest uid infos.now }
{
    if uid {
        greatest_uid(infos)
    } else {
        infos.len() as u32
    }
}

/// The places, counted from 0, of the messages that a set names: by UID, or by number.
pub fn named_places(
    alloc: Global,
    uid: bool,
    set: &Set,
    infos: &[Info],
) -> Result<Vec<usize>, AllocError>
    requires { length infos.now ≤ record_limit }
    ensures { IfOk result (λ places. places.items ≡ named_places uid set.now infos.now) }
{
    let most = largest(uid, infos);
    let mut places = Vec::new(alloc);
    for (place, info) in infos.iter().enumerate() {
        if set.has(number_at(uid, place, info), most) {
            places.push(place)?;
        }
    }
    Ok(places)
}

// Whether an end of a range lies past the last message.
fn is_past(count: usize, end: End) -> bool
    ensures { result ≡ is_past count end }
{
    match end {
        End::Number(n) => n as usize > count,
        End::Largest => count == 0,
    }
}

fn names_past(count: usize, set: &Set) -> bool
    ensures { result ≡ names_past count set.now }
{
    set.ranges
        .as_slice()
        .iter()
        .any(|range| is_past(count, range.0) || is_past(count, range.1))
}

/// Whether a set names a number past the last of so many messages. UIDs need not be there.
pub fn names_missing(uid: bool, count: usize, set: &Set) -> bool
    ensures { result ≡ (if uid then false else names_past count set.now) }
{
    !uid && names_past(count, set)
}
