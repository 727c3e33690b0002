// Before the greeting.
ghost use Rattle.std.specs.Prelude.{◌≡◌, ◌≢◌, ◌≤◌, true, false, IfOk, IfErr, OnOk, string_bytes};
ghost use Rattle.file_model.specs.Paths.{parent, is_top};
ghost use Rattle.file_model.specs.Images.{is_directory, node_at, nothing};
ghost use Rattle.file_model.specs.Disk.{seen};
ghost use Rattle.file_model.specs.Kinds.{CanMake};
ghost use Rattle.file_model.specs.Histories.{Now, Passed, Ran, Ended};
ghost use Rattle.file_model.specs.Causes.{FileCause};
ghost use Rattle.file_model.specs.Kept.{MayMake};
ghost use Rattle.any_store.specs.Stores.{view_of};
ghost use Rattle.mail_tree.specs.Trees.{Tree};
ghost use Rattle.session_loop.specs.Instants.{Answering, Opened};
ghost use Rattle.imap_session.specs.Protocol.{protocol};
ghost use Rattle.imap_session.specs.Standing.{StandsFor};
ghost use Rattle.imapd_core.specs.Opening.{IsMade, IsNew, NoUnits, OpeningCause};
ghost use Rattle.imapd_core.specs.Runs.{formats, inbox_of, is_word, state_of, HasMailboxes};

use any_store::AnyStore;
use file_model::{Failed, Files, Kind};
use imap_reply::ReplyBuffer;
use imap_session::{Root, Server, Session};
use std::alloc::{AllocError, Global};

/// Why no session was opened.
#[derive(Clone, Copy, Debug, PartialEq, Eq)]
pub enum NoSession {
    /// No directory stands at the root.
    Words,
    FileFault,
    Memory,
}

/// Opens the session of a root, and makes INBOX where nothing stands.
pub fn open<F: Files>(
    alloc: Global,
    files: &mut F,
    root: &str,
    moment: u32,
) -> Result<Server<AnyStore>, NoSession>
    requires word { is_word root.now ≡ true }
    requires moment { 1 ≤ moment }

    // At each instant nothing is said, and the mix mailboxes are as they were.
    ensures instants { (tree : Tree) → Now (F.history files.old) (λ w. HasMailboxes formats root.now tree (seen w.disk))
        → Passed (Answering (protocol formats) (state_of root.now moment tree) NoUnits) (F.history files.old) (F.history files.new) }
    ensures opened { (tree : Tree) → Now (F.history files.old) (λ w. HasMailboxes formats root.now tree (seen w.disk))
        → IfOk result (λ server. Opened (protocol formats) (StandsFor formats view_of server.session) (state_of root.now moment tree) (F.history files.old) (F.history files.new)) }

    // Only files are called. An INBOX that is made is settled.
    ensures runs { Ran (MayMake (inbox_of root.now)) (F.history files.old) (F.history files.new) }
    ensures made { OnOk result (Ended (IsMade (inbox_of root.now)) (F.history files.old) (F.history files.new)) }

    // The words are refused exactly where no directory stands at the root, and nothing else is tried there.
    ensures root { OnOk result (Now (F.history files.old) (λ w. is_directory (seen w.disk) root.now ≡ true)) }
    ensures memory { IfErr result (λ e. e ≡ NoSession.Memory → Now (F.history files.old) (λ w. is_directory (seen w.disk) root.now ≡ true)) }
    ensures words { IfErr result (λ e. e ≡ NoSession.Words → Now (F.history files.old) (λ w. is_directory (seen w.disk) root.now ≡ false)) }
    ensures quiet { IfErr result (λ e. e ≡ NoSession.Words → F.history files.new ≡ F.history files.old) }
    ensures cause { OpeningCause (F.faults files.old) (F.faults files.new) result }
{
    match files.stat(root) {
        Ok(Kind::Dir) => open_in(alloc, files, root, moment),
        Ok(_) => Err(NoSession::Words),
        Err(_) => Err(NoSession::FileFault),
    }
}

// The same, where the root is a directory.
fn open_in<F: Files>(
    alloc: Global,
    files: &mut F,
    root: &str,
    moment: u32,
) -> Result<Server<AnyStore>, NoSession>
    requires word { is_word root.now ≡ true }
    requires moment { 1 ≤ moment }
    requires root { Now (F.history files.old) (λ w. is_directory (seen w.disk) root.now ≡ true) }
    ensures instants { (tree : Tree) → Now (F.history files.old) (λ w. HasMailboxes formats root.now tree (seen w.disk))
        → Passed (Answering (protocol formats) (state_of root.now moment tree) NoUnits) (F.history files.old) (F.history files.new) }
    ensures opened { (tree : Tree) → Now (F.history files.old) (λ w. HasMailboxes formats root.now tree (seen w.disk))
        → IfOk result (λ server. Opened (protocol formats) (StandsFor formats view_of server.session) (state_of root.now moment tree) (F.history files.old) (F.history files.new)) }
    ensures runs { Ran (MayMake (inbox_of root.now)) (F.history files.old) (F.history files.new) }
    ensures made { OnOk result (Ended (IsMade (inbox_of root.now)) (F.history files.old) (F.history files.new)) }
    ensures words { IfErr result (λ e. e ≢ NoSession.Words) }
    ensures cause { OpeningCause (F.faults files.old) (F.faults files.new) result }
{
    // All that takes memory comes before the first change.
    let Ok(path) = inbox_path(alloc, root) else {
        return Err(NoSession::Memory);
    };
    let Ok(server) = new_server(alloc, root, moment) else {
        return Err(NoSession::Memory);
    };
    match make_missing(files, root, path.as_str()) {
        Ok(()) => Ok(server),
        Err(Failed) => Err(NoSession::FileFault),
    }
}

// A session in which no command came yet.
fn new_server(alloc: Global, root: &str, moment: u32) -> Result<Server<AnyStore>, AllocError>
    requires word { is_word root.now ≡ true }
    requires moment { 1 ≤ moment }
    ensures { IfOk result (λ server. IsNew root.now moment server.session) }
{
    let out = ReplyBuffer::begin(alloc)?;
    let path = String::from_str(alloc, root)?;
    match Root::of(path) {
        Some(root) => Ok(Server {
            session: Session::new(alloc, root, moment),
            out,
        }),
        None => unreachable!(),
    }
}

fn inbox_path(alloc: Global, root: &str) -> Result<String, AllocError>
    ensures { IfOk result (λ path. string_bytes path ≡ inbox_of root.now) }
{
    let mut path = String::from_str(alloc, root)?;
    path.push_str("/INBOX")?;
    Ok(path)
}

// Makes an empty file in a directory where nothing stands.
fn make_missing<F: Files>(files: &mut F, dir: &str, path: &str) -> Result<(), Failed>
    requires inside { parent path.now ≡ dir.now }
    requires room { Now (F.history files.old) (λ w. is_directory (seen w.disk) (parent path.now) ≡ true) }
    requires below { is_top path.now ≡ false }
    ensures instants { Ran (MayMake path.now) (F.history files.old) (F.history files.new) }
    ensures made { OnOk result (Ended (IsMade path.now) (F.history files.old) (F.history files.new)) }
    ensures cause { FileCause (F.faults files.old) (F.faults files.new) result }
{
    match files.stat(path)? {
        Kind::Nothing => make_settled(files, dir, path),
        Kind::File(_) => Ok(()),
        Kind::Dir => Ok(()),
    }
}

// Makes an empty file, and settles the directory in which it stands.
fn make_settled<F: Files>(files: &mut F, dir: &str, path: &str) -> Result<(), Failed>
    requires inside { parent path.now ≡ dir.now }
    requires nothing { Now (F.history files.old) (λ w. node_at (seen w.disk) path.now ≡ nothing) }
    requires can { Now (F.history files.old) (λ w. CanMake (seen w.disk) path.now) }
    ensures instants { Ran (MayMake path.now) (F.history files.old) (F.history files.new) }
    ensures made { OnOk result (Ended (IsMade path.now) (F.history files.old) (F.history files.new)) }
    ensures cause { FileCause (F.faults files.old) (F.faults files.new) result }
{
    files.make(path)?;
    files.sync_dir(dir)
}
