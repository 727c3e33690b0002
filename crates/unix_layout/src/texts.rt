// The texts of a mailbox, and what a step makes of them.
ghost use Rattle.std.specs.Prelude.{◌≡◌, ◌++◌, true, length, IfOk, OnOk};
ghost use Rattle.mail_types.specs.declared.driver.Driver.TheVariants.{Unix};
ghost use Rattle.mail_types.specs.Drivers.{keeps_of};
ghost use Rattle.mail_types.specs.Lists.{RiseBelow, undropped};
ghost use Rattle.store_index.specs.Steps.{change_of};
ghost use Rattle.store_index.specs.Told.{changed_texts, new_texts};

use mail_fields::Bytes;
use mail_types::NewMessage;
use std::alloc::{AllocError, Global};
use store_index::Step;
use text_forms::unix_form;

fn copied_texts(alloc: Global, texts: &[Bytes]) -> Result<Vec<Bytes>, AllocError>
    ensures { IfOk result (λ copies. copies.items ≡ texts.now) }
{
    let mut copies = Vec::new(alloc);
    for text in texts {
        copies.push(Bytes::of(alloc, text.as_slice())?)?;
    }
    Ok(copies)
}

// Appends the texts of new messages as a unix file keeps them.
fn push_texts(alloc: Global, texts: &mut Vec<Bytes>, new: &[NewMessage]) -> Result<(), AllocError>
    ensures { OnOk result (texts.new.items ≡ texts.old.items ++ new_texts (keeps_of Unix) new.now) }
{
    for message in new {
        let text = unix_form(alloc, message.text.as_slice())?;
        texts.push(Bytes::from_vec(text))?;
    }
    Ok(())
}

// Drops the texts at places that rise, the last first.
fn drop_texts(texts: &mut Vec<Bytes>, places: &[usize])
    requires { RiseBelow 0 (length texts.old.items) places.now }
    ensures { texts.new.items ≡ undropped 0 places.now texts.old.items }
{
    for done in 0..places.len() {
        let _dropped = texts.remove(places[places.len() - 1 - done]);
    }
}

// Whether places rise, below a number of messages.
fn rise_below(places: &[usize], count: usize) -> bool
    ensures { result ≡ true → RiseBelow 0 count places.now }
{
    let mut least = 0;
    for place in places {
        if *place < least || *place >= count {
            return false;
        }
        least = *place + 1;
    }
    true
}

fn left_texts(alloc: Global, texts: &[Bytes], places: &[usize]) -> Result<Vec<Bytes>, AllocError>
    ensures { IfOk result (λ left. left.items ≡ undropped 0 places.now texts.now) }
{
    if !rise_below(places, texts.len()) {
        return Err(AllocError);
    }
    let mut left = copied_texts(alloc, texts)?;
    drop_texts(&mut left, places);
    Ok(left)
}

fn more_texts(alloc: Global, texts: &[Bytes], new: &[NewMessage]) -> Result<Vec<Bytes>, AllocError>
    ensures { IfOk result (λ more. more.items ≡ texts.now ++ new_texts (keeps_of Unix) new.now) }
{
    let mut more = copied_texts(alloc, texts)?;
    push_texts(alloc, &mut more, new)?;
    Ok(more)
}

/// The texts after a step. Want of memory stands for places that don't rise or have no message, which no call has.
pub fn texts_after(alloc: Global, texts: &[Bytes], step: Step<'_>) -> Result<Vec<Bytes>, AllocError>
    ensures { IfOk result (λ after. after.items ≡ changed_texts (keeps_of Unix) texts.now (change_of step.entry)) }
{
    match step {
        Step::Append(new, _) => more_texts(alloc, texts, new),
        Step::SetFlags(_, _) => copied_texts(alloc, texts),
        Step::Expunge(places) => left_texts(alloc, texts, places),
    }
}
