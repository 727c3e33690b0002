//! Changes one after the other, as `run` does them: an append with a new name, a change of flags, and an expunge.
ghost use Rattle.std.specs.Prelude.{◌≡◌, ◌∷◌, [], length, true, IfOk};
ghost use Rattle.std.specs.List.{list_all};
ghost use Rattle.mail_types.specs.Drivers.{keeps_of};
ghost use Rattle.mail_types.specs.Lists.{places_of};
ghost use Rattle.mail_types.specs.Mailboxes.{has_no_nul};
ghost use Rattle.mail_types.specs.declared.message.NewMessage.{NewMessage as NewMessageEntry};
ghost use Rattle.store_trait.specs.Runs.{CanRun};

use crate::calls::{copies, is_clean, more_words};
use bare_host::BareHost;
use mail_fields::{Bytes, Keyword, Keywords, Places, Stamp};
use mail_types::{FlagChange, FlagChanges, Flags, NewMessage, NewMessages};
use std::alloc::{AllocError, Global};
use std::test::Fail;
use store_trait::{Change, Store, StoreFault, run};

// 2-Apr-2024 08:00:00 +0200
const STAMP: Stamp = Stamp {
    day: 19815,
    second: 28800,
    zone_minutes: 120,
};

// The first message gets all flags that a client sets, and no keyword.
const CHANGE: FlagChange = FlagChange {
    place: 0,
    flags: Flags {
        seen: true,
        answered: true,
        flagged: true,
        deleted: true,
        draft: true,
        old: false,
    },
    words: 0,
};

// A message that was seen and has keyword 0.
fn message(alloc: Global, text: &[u8]) -> Result<NewMessage, AllocError>
    ensures { IfOk result (λ m. m.text ≡ text.now) }
{
    let mut flags = Flags::none();
    flags.seen = true;
    Ok(NewMessage {
        text: Bytes::of(alloc, text)?,
        stamp: STAMP,
        flags,
        words: 1,
    })
}

fn one_message(alloc: Global, text: &[u8]) -> Result<NewMessages, AllocError>
    requires { has_no_nul text.now ≡ true }
    ensures one { IfOk result (λ new. length new ≡ 1) }
    ensures clean { IfOk result (λ new. list_all (λ (m : NewMessageEntry). has_no_nul m.text) new ≡ true) }
{
    let mut new = Vec::new(alloc);
    new.push(message(alloc, text)?)?;
    Ok(NewMessages::of(new))
}

fn one_change(alloc: Global) -> Result<FlagChanges, AllocError>
    ensures { IfOk result (λ changes. places_of changes ≡ 0 ∷ []) }
{
    let mut changes = Vec::new(alloc);
    changes.push(CHANGE)?;
    Ok(FlagChanges::of(changes))
}

fn first_place(alloc: Global) -> Result<Places, AllocError>
    ensures { IfOk result (λ places. places ≡ 0 ∷ []) }
{
    let mut places = Vec::new(alloc);
    places.push(0)?;
    Ok(Places::of(places))
}

fn in_order(
    alloc: Global,
    first: Change,
    second: Change,
    third: Change,
) -> Result<Vec<Change>, AllocError>
    ensures { IfOk result (λ all. all.items ≡ first ∷ second ∷ third ∷ []) }
{
    let mut all = Vec::new(alloc);
    all.push(first)?;
    all.push(second)?;
    all.push(third)?;
    Ok(all)
}

// A new message under a new name, then the flags of the first message, and its removal.
#[tactic(auto, using(crate::proofs::Words::can_run_three))]
fn three_changes<S: Store<BareHost>>(
    alloc: Global,
    store: &S,
    name: Keyword,
    text: &[u8],
) -> Result<Vec<Change>, Fail>
    ensures { IfOk result (λ all. CanRun (keeps_of (S.view store.now).driver) (S.view store.now).summary.words (length (S.view store.now).summary.infos) all.items) }
{
    if !is_clean(text) {
        return Err(Fail::new("a NUL in a text"));
    }
    let words = more_words(alloc, store, name)?;
    let same = copies(alloc, words.as_slice())?;
    let new = one_message(alloc, text)?;
    let changes = one_change(alloc)?;
    let places = first_place(alloc)?;
    let append = Change::Append(new, Keywords::of(words));
    let set_flags = Change::SetFlags(changes, Keywords::of(same));
    Ok(in_order(alloc, append, set_flags, Change::Expunge(places))?)
}

/// How many of the three changes are done, and why no more.
pub(crate) fn run_three<S: Store<BareHost>>(
    alloc: Global,
    store: &mut S,
    host: &mut BareHost,
) -> Result<Result<usize, (usize, StoreFault)>, Fail> {
    let Some(name) = Keyword::read(alloc, b"Work")? else {
        return Err(Fail::new("no keyword"));
    };
    let changes = three_changes(alloc, store, name, b"Subject: q\r\n\r\n")?;
    Ok(run(store, host, changes.as_slice()))
}
