// Texts of messages of an open mailbox.
ghost use Rattle.std.specs.Prelude.{◌≡◌, ◌≤◌, ◌<◌, length, true, IfOk, OnOk};
ghost use Rattle.file_model.specs.Disk.{seen};
ghost use Rattle.file_model.specs.Histories.{Now};
ghost use Rattle.mail_types.specs.Mailboxes.{has_no_nul};
ghost use Rattle.session_loop.specs.Outcome.{UnitCause};
ghost use Rattle.store_trait.specs.Promises.{CanAsk, GivesText};
ghost use Rattle.store_trait.specs.Views.{size_at, text_at};
ghost use Rattle.imap_session.specs.Reading.{ReadsOn};

use crate::commit::stop_of;
use file_model::Files;
use session_loop::Stop;
use store_trait::Store;

/// Fills the buffer with the text of the message at a place, from an offset in it on, and gives the count.
pub fn read_text<F: Files, S: Store<F>>(
    store: &mut S,
    files: &mut F,
    place: usize,
    from: usize,
    buf: &mut [u8],
) -> Result<usize, Stop>
    requires place { place < length (S.view store.old).summary.infos }
    requires from { from ≤ size_at (S.view store.old).summary place }
    requires standing { CanAsk (S.view store.old) (F.history files.old) }
    ensures gives { IfOk result (λ n. GivesText (S.view store.old) place from buf.old buf.new (F.history files.old) n) }
    ensures told { OnOk result (Now (F.history files.old) (λ w. (S.view store.old).stands (seen w.disk))) }
    ensures reads_on { OnOk result (ReadsOn (S.view store.old) (S.view store.new) (F.history files.old)) }
    ensures standing { CanAsk (S.view store.new) (F.history files.old) }
    ensures history { F.history files.new ≡ F.history files.old }
    ensures cause { UnitCause (F.faults files.old) (F.faults files.new) result }
{
    match Store::<F>::text(store, files, place, from, buf) {
        Ok(count) => Ok(count),
        Err(fault) => Err(stop_of(fault)),
    }
}

/// Reads the whole text of the message at a place into a buffer that may have been used before.
pub fn read_whole<F: Files, S: Store<F>>(
    store: &mut S,
    files: &mut F,
    place: usize,
    buf: &mut Vec<u8>,
) -> Result<(), Stop>
    requires place { place < length (S.view store.old).summary.infos }
    requires standing { CanAsk (S.view store.old) (F.history files.old) }
    ensures gives { OnOk result (Now (F.history files.old) (λ w. buf.new.items ≡ text_at ((S.view store.old).mailbox (seen w.disk)) place)) }
    ensures size { OnOk result (length buf.new.items ≡ size_at (S.view store.old).summary place) }
    ensures clean { OnOk result (has_no_nul buf.new.items ≡ true) }
    ensures told { OnOk result (Now (F.history files.old) (λ w. (S.view store.old).stands (seen w.disk))) }
    ensures reads_on { OnOk result (ReadsOn (S.view store.old) (S.view store.new) (F.history files.old)) }
    ensures standing { CanAsk (S.view store.new) (F.history files.old) }
    ensures history { F.history files.new ≡ F.history files.old }
    ensures cause { UnitCause (F.faults files.old) (F.faults files.new) result }
{
    let size = Store::<F>::info(store, place).size as usize;
    if buf.resize(size, 0).is_err() {
        return Err(Stop::Memory);
    }
    read_text(store, files, place, 0, buf.as_mut_slice())?;
    Ok(())
}
