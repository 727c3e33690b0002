// FETCH (RFC 3501, section 6.4.5), for items that need no text of a message.
ghost use Rattle.std.specs.Prelude.{◌≡◌, ◌++◌, ◌∷◌, [], true, if◌then◌else◌, IfOk, OnOk};
ghost use Rattle.std.specs.List.{list_all};
ghost use Rattle.any_store.specs.Choice.{formats_of, chosen};
ghost use Rattle.file_model.specs.Histories.{Now};
ghost use Rattle.session_loop.specs.Outcome.{UnitCause};
ghost use Rattle.imap_session.specs.Doing.{Does};
ghost use Rattle.imap_session.specs.Fetch.{fetch, fetched, same_item, asks, each_once, said_items};
ghost use Rattle.imap_session.specs.Items.{is_built};
ghost use Rattle.imap_session.specs.Protocol.{stop_in};
ghost use Rattle.imap_session.specs.Standing.{StandsFor};
ghost use Rattle.imap_session.specs.State.{State};
ghost use Rattle.imap_session.specs.Step.{not_built};

use crate::commands::fetch_line::{Looking, put_lines};
use crate::infos::infos_of;
use crate::named::{named_places, names_missing};
use crate::refusal::{Refusal, ends_with};
use crate::session::Session;
use any_store::AnyMailbox;
use file_model::Host;
use imap_arguments::{FetchItems, Item, Set, Tag};
use imap_reply::{Reply, ReplyBuffer, Words};
use std::alloc::{AllocError, Global};
use store_trait::Store;

/// Says items of messages. Behind UID a set has UIDs, and each line its own.
pub fn answer<H: Host, S: AnyMailbox<H> + Drop>(
    session: &mut Session<S>,
    host: &mut H,
    tag: Tag,
    uid: bool,
    set: &Set,
    items: &FetchItems,
    out: &mut ReplyBuffer,
) -> Result<Reply, Refusal>
    requires empty { out.old ≡ [] }
    requires stands { Now (H.history host.old) (λ w. (state : State) × StandsFor (formats_of S.forms chosen) S.view session.old w.disk state) }
    ensures does { Does (formats_of S.forms chosen) (StandsFor (formats_of S.forms chosen) S.view session.old) (StandsFor (formats_of S.forms chosen) S.view session.new)
        (λ state. if list_all is_built items.now then fetch tag uid set.now items.now state else not_built tag state) result out.new (H.history host.old) (H.history host.new) }
    ensures cause { UnitCause (H.faults host.old) (H.faults host.new) (stop_in result) }
{
    if !are_built(items.as_slice()) {
        return Err(Refusal::Line(Reply::Bad(tag, 0)));
    }
    say(session, host, tag, uid, set, items.as_slice(), out)
}

// Says items that are built.
#[tactic(auto, using(crate::proofs::Exits::refuses_at, crate::proofs::Selections::unselected_refused))]
fn say<H: Host, S: AnyMailbox<H>>(
    session: &Session<S>,
    host: &mut H,
    tag: Tag,
    uid: bool,
    set: &Set,
    items: &[Item],
    out: &mut ReplyBuffer,
) -> Result<Reply, Refusal>
    requires empty { out.old ≡ [] }
    requires built { list_all is_built items.now ≡ true }
    requires stands { Now (H.history host.old) (λ w. (state : State) × StandsFor (formats_of S.forms chosen) S.view session.now w.disk state) }
    ensures does { Does (formats_of S.forms chosen) (StandsFor (formats_of S.forms chosen) S.view session.now) (StandsFor (formats_of S.forms chosen) S.view session.now)
        (fetch tag uid set.now items.now) result out.new (H.history host.old) (H.history host.new) }
    ensures cause { UnitCause (H.faults host.old) (H.faults host.new) (stop_in result) }
{
    let alloc = session.alloc;
    let Some(open) = &session.selected else {
        return Err(Refusal::Line(Reply::NotSelected(tag)));
    };
    let told = infos_of::<H, S>(alloc, &open.store)?;
    let infos = told.as_slice();
    if names_missing(uid, infos.len(), set) {
        return Err(Refusal::Line(Reply::NoMessage(tag)));
    }
    let said = said_items(alloc, uid, items)?;
    let places = named_places(alloc, uid, set, infos)?;
    let looking = Looking {
        alloc,
        infos,
        words: Store::<H>::words(&open.store),
        recent: open.recent.as_slice(),
        items: said.as_slice(),
    };
    ends_with(
        put_lines(&looking, places.as_slice(), host, out),
        Reply::Done(tag, fetched(uid)),
    )
}

fn fetched(uid: bool) -> Words
    ensures { result ≡ fetched uid }
{
    if uid { Words::UidFetch } else { Words::Fetch }
}

fn is_built(item: &Item) -> bool
    ensures { result ≡ is_built item.now }
{
    match item {
        Item::Flags => true,
        Item::InternalDate => true,
        Item::Size => true,
        Item::Uid => true,
        _ => false,
    }
}

fn are_built(items: &[Item]) -> bool
    ensures { result ≡ list_all is_built items.now }
{
    items.iter().all(is_built)
}

// A built item again.
fn copied(item: &Item) -> Item
    requires { is_built item.now ≡ true }
    ensures { result ≡ item.now }
{
    match item {
        Item::Flags => Item::Flags,
        Item::InternalDate => Item::InternalDate,
        Item::Size => Item::Size,
        _ => Item::Uid,
    }
}

// Whether two built items are the same.
fn is_same(one: &Item, other: &Item) -> bool
    requires { is_built one.now ≡ true }
    ensures { result ≡ same_item one.now other.now }
{
    match (one, other) {
        (Item::Flags, Item::Flags) => true,
        (Item::InternalDate, Item::InternalDate) => true,
        (Item::Size, Item::Size) => true,
        (Item::Uid, Item::Uid) => true,
        _ => false,
    }
}

// Whether a built item stands among others.
fn is_among(items: &[Item], item: &Item) -> bool
    requires { is_built item.now ≡ true }
    ensures { result ≡ asks items.now item.now }
{
    for other in items {
        if is_same(item, other) {
            return true;
        }
    }
    false
}

// Puts a built item behind others, unless it stands among them.
fn add_new(once: &mut Vec<Item>, item: &Item) -> Result<(), AllocError>
    requires { is_built item.now ≡ true }
    ensures { OnOk result (once.new.items ≡ (if asks once.old.items item.now then once.old.items else once.old.items ++ item.now ∷ [])) }
{
    if !is_among(once.as_slice(), item) {
        once.push(copied(item))?;
    }
    Ok(())
}

// Each item once, in the order asked.
fn each_once(alloc: Global, asked: &[Item]) -> Result<Vec<Item>, AllocError>
    requires { list_all is_built asked.now ≡ true }
    ensures are { IfOk result (λ once. once.items ≡ each_once [] asked.now) }
    ensures built { IfOk result (λ once. list_all is_built once.items ≡ true) }
{
    let mut once = Vec::new(alloc);
    for item in asked {
        add_new(&mut once, item)?;
    }
    Ok(once)
}

// The items of each line, in their order.
fn said_items(alloc: Global, uid: bool, asked: &[Item]) -> Result<Vec<Item>, AllocError>
    requires { list_all is_built asked.now ≡ true }
    ensures are { IfOk result (λ said. said.items ≡ said_items uid asked.now) }
    ensures built { IfOk result (λ said. list_all is_built said.items ≡ true) }
{
    let mut said = each_once(alloc, asked)?;
    if uid && !is_among(said.as_slice(), &Item::Uid) {
        said.insert(0, Item::Uid)?;
    }
    Ok(said)
}
