// The top call.
ghost use Rattle.std.specs.Prelude.{◌≡◌, ◌≤◌, ◌∷◌, [], List, ℕ, true, false, map, IfSome, IfNone, string_bytes};
ghost use Rattle.file_model.specs.Disk.{seen};
ghost use Rattle.file_model.specs.Histories.{Now};
ghost use Rattle.file_model.specs.Images.{is_directory};
ghost use Rattle.imapd_core.specs.Promises.{Says, IsServedAs, Keeps, CanRestart, IsSettled, IsShort, RefusesWords};
ghost use Rattle.imapd_core.specs.Runs.{formats, is_word, AtEachInstant, AtTheEnd, AfterEachCrash, FromRest};
ghost use Rattle.imapd_core.specs.Statuses.{number_of, status_of_end, status_of_none, StatusCause, WasServed, HasRoot};

use crate::opening::{NoSession, open};
use file_model::Host;
use session_loop::{End, serve};
use std::alloc::Global;

/// How a session ended. The numbers are the exit statuses of the program.
#[derive(Clone, Copy, Debug, PartialEq, Eq)]
pub enum Status {
    /// LOGOUT was answered, or the input ended between two commands.
    Done,
    /// The input ended inside a command.
    Cut,
    /// The words aren't one root, which is 1 to 1,024 bytes without NUL at which a directory stands.
    Words,
    /// Reading the input failed.
    HearFault,
    /// Writing the output failed.
    SayFault,
    Memory,
    /// A call on the files failed.
    FileFault,
    /// 2^40 bytes were read without LOGOUT or the end.
    Long,
}

impl Status {
    pub fn number(self) -> u8
        ensures { result ≡ number_of self }
    {
        match self {
            Status::Done => 0,
            Status::Cut => 1,
            Status::Words => 2,
            Status::HearFault => 3,
            Status::SayFault => 4,
            Status::Memory => 5,
            Status::FileFault => 6,
            Status::Long => 7,
        }
    }
}

/// Serves the mailboxes of the root that the words name. `words` are those behind the program's name, `moment` is the
/// number of seconds since 1970.
pub fn imapd<H: Host>(alloc: Global, words: &[String], host: &mut H, moment: u32) -> Status
    requires moment { 1 ≤ moment }

    // What was said begins the greeting and the replies to all commands heard, and no reply waited for a `hear`.
    ensures says { AtEachInstant formats (map string_bytes words.now) moment (H.history host.old) (H.history host.new) (Says formats) }

    // Where the session was served to its end all replies were said, reads see the mailboxes after them, and the status is the one that the bytes heard tell.
    ensures served { WasServed result → AtTheEnd formats (map string_bytes words.now) moment (H.history host.old) (H.history host.new) (IsServedAs formats result) }

    // Whatever a crash leaves and finds said: one number of commands serves all mix mailboxes, among them all whose replies were said.
    ensures crash { AfterEachCrash formats (map string_bytes words.now) moment (H.history host.old) (H.history host.new) (Keeps formats) }

    // And the next run can begin there, with these mailboxes.
    ensures restart { AfterEachCrash formats (map string_bytes words.now) moment (H.history host.old) (H.history host.new) (CanRestart formats) }

    // Nothing is said before INBOX stands and is settled.
    ensures settled { FromRest formats (map string_bytes words.now) moment (H.history host.old) (IsSettled (H.history host.old) (H.history host.new)) }

    // At most 2^40 bytes were heard, and each turn but the last heard one.
    ensures short { IsShort (H.history host.old) (H.history host.new) }

    // The words are refused exactly where they aren't one root at which a directory stands; then nothing is done.
    ensures words { RefusesWords (map string_bytes words.now) result (H.history host.old) (H.history host.new) }

    // Each fault has its cause: the count of failed calls of its kind rose.
    ensures cause { StatusCause (H.faults host.old) (H.faults host.new) result }
{
    match root_of(words) {
        Some(root) => serve_root(alloc, host, root, moment),
        None => Status::Words,
    }
}

// The root that the words name.
fn root_of(words: &[String]) -> Option<&str>
    ensures some { IfSome result (λ root. (map string_bytes words.now ≡ root.now ∷ []) × (is_word root.now ≡ true)) }
    ensures none { IfNone result ((root : List ℕ) → map string_bytes words.now ≡ root ∷ [] → is_word root ≡ false) }
{
    if words.len() != 1 {
        return None;
    }
    let root = words[0].as_str();
    if is_word(root.as_bytes()) {
        Some(root)
    } else {
        None
    }
}

// 1 to 1,024 bytes without NUL.
fn is_word(word: &[u8]) -> bool
    ensures { result ≡ is_word word.now }
{
    if word.is_empty() {
        return false;
    }
    if word.len() > 1024 {
        return false;
    }
    !word.contains(&0)
}

// Serves the mailboxes of a root, with the clauses of the top call.
fn serve_root<H: Host>(alloc: Global, host: &mut H, root: &str, moment: u32) -> Status
    requires word { is_word root.now ≡ true }
    requires moment { 1 ≤ moment }
    ensures says { AtEachInstant formats (root.now ∷ []) moment (H.history host.old) (H.history host.new) (Says formats) }
    ensures served { WasServed result → AtTheEnd formats (root.now ∷ []) moment (H.history host.old) (H.history host.new) (IsServedAs formats result) }
    ensures crash { AfterEachCrash formats (root.now ∷ []) moment (H.history host.old) (H.history host.new) (Keeps formats) }
    ensures restart { AfterEachCrash formats (root.now ∷ []) moment (H.history host.old) (H.history host.new) (CanRestart formats) }
    ensures settled { FromRest formats (root.now ∷ []) moment (H.history host.old) (IsSettled (H.history host.old) (H.history host.new)) }
    ensures short { IsShort (H.history host.old) (H.history host.new) }
    ensures words { result ≡ Status.Words → Now (H.history host.old) (λ w. is_directory (seen w.disk) root.now ≡ false) }
    ensures root { HasRoot result → Now (H.history host.old) (λ w. is_directory (seen w.disk) root.now ≡ true) }
    ensures quiet { result ≡ Status.Words → H.history host.new ≡ H.history host.old }
    ensures cause { StatusCause (H.faults host.old) (H.faults host.new) result }
{
    match open(alloc, host, root, moment) {
        Ok(mut server) => status_of_end(serve(alloc, &mut server, host, GREETING)),
        Err(no_session) => status_of_none(no_session),
    }
}

const GREETING: &[u8] = b"* PREAUTH [CAPABILITY IMAP4rev1] ready\r\n";

fn status_of_end(end: End) -> Status
    ensures { result ≡ status_of_end end }
{
    match end {
        End::Done => Status::Done,
        End::Cut => Status::Cut,
        End::HearFault => Status::HearFault,
        End::SayFault => Status::SayFault,
        End::Memory => Status::Memory,
        End::FileFault => Status::FileFault,
        End::Long => Status::Long,
    }
}

fn status_of_none(none: NoSession) -> Status
    ensures { result ≡ status_of_none none }
{
    match none {
        NoSession::Words => Status::Words,
        NoSession::FileFault => Status::FileFault,
        NoSession::Memory => Status::Memory,
    }
}
