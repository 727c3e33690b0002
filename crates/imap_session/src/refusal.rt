// Why a command isn't done.
ghost use Rattle.std.specs.Prelude.{◌≡◌};
ghost use Rattle.imap_session.specs.Endings.{ends_with};
ghost use Rattle.imap_session.specs.Refusals.{limit_text, open_text, store_text, tree_text, refused_by, refused_by_store, answered_by};

use imap_arguments::Tag;
use imap_reply::{NoText, Reply, Words};
use mail_tree::TreeFault;
use mail_types::Limit;
use session_loop::Stop;
use std::alloc::AllocError;
use store_trait::{OpenFault, StoreFault};

/// Why a command isn't done: it is refused with a line, or the session ends.
#[derive(Drop)]
pub enum Refusal {
    Line(Reply),
    Ends(Stop),
}

impl From<Stop> for Refusal {
    ghost use Rattle.imap_session.specs.declared.refusal.Refusal.TheVariants.{Ends};

    ghost from_gives = { λ stop e. e ≡ Ends stop };

    fn from(stop: Stop) -> Refusal {
        Refusal::Ends(stop)
    }
}

impl From<AllocError> for Refusal {
    ghost use Rattle.imap_session.specs.declared.refusal.Refusal.TheVariants.{Ends};
    ghost use Rattle.session_loop.specs.declared.answers.Stop.TheVariants.{Memory};

    ghost from_gives = { λ _ e. e ≡ Ends Memory };

    fn from(_: AllocError) -> Refusal {
        Refusal::Ends(Stop::Memory)
    }
}

/// The untagged lines of a command are put, and its last is left; or the session ends.
pub fn ends_with(lines: Result<(), Stop>, last: Reply) -> Result<Reply, Refusal>
    ensures { result ≡ ends_with lines last }
{
    match lines {
        Ok(()) => Ok(last),
        Err(stop) => Err(Refusal::Ends(stop)),
    }
}

fn limit_text(limit: Limit) -> NoText
    ensures { result ≡ limit_text limit }
{
    match limit {
        Limit::File => NoText::StoreTooLarge,
        Limit::Text => NoText::MessageTooLarge,
        Limit::Records => NoText::TooManyMessages,
    }
}

fn open_text(fault: OpenFault) -> NoText
    ensures { result ≡ open_text fault }
{
    match fault {
        OpenFault::Absent => NoText::Absent,
        OpenFault::IllFormed(driver, records) => NoText::IllFormed(driver, records),
        OpenFault::TooLarge(limit) => limit_text(limit),
        OpenFault::Failed | OpenFault::Memory => NoText::NotStore,
    }
}

// What a refusal by a store says.
fn store_text(fault: StoreFault) -> NoText
    ensures { result ≡ store_text fault }
{
    match fault {
        StoreFault::NoUid => NoText::NoUid,
        StoreFault::TooMany => NoText::TooManyMessages,
        StoreFault::TooLarge(limit) => limit_text(limit),
        StoreFault::Failed | StoreFault::Broken | StoreFault::Memory => NoText::NotStore,
    }
}

/// What a refusal by the tree says.
pub fn tree_text(fault: TreeFault) -> NoText
    ensures { result ≡ tree_text fault }
{
    match fault {
        TreeFault::BadName => NoText::BadName,
        TreeFault::There => NoText::There,
        TreeFault::Absent => NoText::Absent,
        TreeFault::NotStore => NoText::NotStore,
        TreeFault::HasChildren => NoText::HasChildren,
        TreeFault::Reserved => NoText::Reserved,
        TreeFault::Selected => NoText::Selected,
        TreeFault::Open(fault) => open_text(fault),
        TreeFault::Store(fault) => store_text(fault),
        TreeFault::Failed | TreeFault::Memory => NoText::NotStore,
    }
}

/// The tree refuses a command; a failed call and want of memory end the session.
pub fn refused_by(tag: Tag, fault: TreeFault) -> Refusal
    ensures { result ≡ refused_by tag fault }
{
    match fault {
        TreeFault::Failed => Refusal::Ends(Stop::FileFault),
        TreeFault::Memory => Refusal::Ends(Stop::Memory),
        fault => Refusal::Line(Reply::Refused(tag, tree_text(fault))),
    }
}

/// The store refuses a change; a failed call and want of memory end the session.
pub fn refused_by_store(tag: Tag, fault: StoreFault) -> Refusal
    ensures { result ≡ refused_by_store tag fault }
{
    match fault {
        StoreFault::Failed => Refusal::Ends(Stop::FileFault),
        StoreFault::Memory => Refusal::Ends(Stop::Memory),
        fault => Refusal::Line(Reply::Refused(tag, store_text(fault))),
    }
}

/// The last line of a change of the tree, unless the tree refuses it.
pub fn answered_by<T: Drop>(
    done: Result<T, TreeFault>,
    tag: Tag,
    words: Words,
) -> Result<Reply, Refusal>
    ensures { result ≡ answered_by tag words done }
{
    match done {
        Ok(_) => Ok(Reply::Done(tag, words)),
        Err(fault) => Err(refused_by(tag, fault)),
    }
}
