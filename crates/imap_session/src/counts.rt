// The numbers that SELECT and STATUS say of a mailbox.
ghost use Rattle.std.specs.Prelude.{◌≡◌, ◌+◌, length, min, IfOk};
ghost use Rattle.imap_session.specs.Select.{count_unseen, first_unseen};
ghost use Rattle.imap_session.specs.Selecting.{unseen_line};

use file_model::Files;
use mail_fields::Numbers;
use std::alloc::AllocError;
use store_trait::Store;

/// The number of messages, of which a store has at most 2^20.
pub fn count_of<F: Files, S: Store<F>>(store: &S) -> u32
    ensures { result ≡ length (S.view store.now).summary.infos }
{
    Store::<F>::count(store) as u32
}

/// The next UID is the last one and one more, where that has 32 bits.
pub fn next_uid<F: Files, S: Store<F>>(store: &S) -> u32
    ensures { result ≡ min ((S.view store.now).summary.last + 1) 4294967295 }
{
    Store::<F>::last(store).saturating_add(1)
}

/// The number of recent messages. No session has more of them than a store has messages.
pub fn recent_count(recent: &Numbers) -> Result<u32, AllocError>
    ensures { IfOk result (λ count. count ≡ length recent.now) }
{
    match u32::try_from(recent.as_slice().len()) {
        Ok(count) => Ok(count),
        Err(_) => Err(AllocError),
    }
}

/// The number of the first message that is unseen.
pub fn first_unseen<F: Files, S: Store<F>>(store: &S) -> Option<u32>
    ensures { first_unseen 1 (S.view store.now).summary.infos ≡ unseen_line result }
{
    for place in 0..Store::<F>::count(store) {
        if !Store::<F>::info(store, place).flags.seen {
            return Some(place as u32 + 1);
        }
    }
    None
}

/// The number of messages that are unseen.
pub fn count_unseen<F: Files, S: Store<F>>(store: &S) -> u32
    ensures { result ≡ count_unseen (S.view store.now).summary.infos }
{
    let mut count: u32 = 0;
    for place in 0..Store::<F>::count(store) {
        if !Store::<F>::info(store, place).flags.seen {
            count += 1;
        }
    }
    count
}
