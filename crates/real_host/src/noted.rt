// The call that failed last, for a message to the user.
use std::alloc::Allocator;
use std::fmt::{self, Display, Formatter};
use std::io;

/// A call of the host.
#[derive(Clone, Copy, Debug, PartialEq, Eq)]
pub enum Call {
    Stat,
    Read,
    Names,
    Make,
    MakeDir,
    Write,
    Cut,
    Sync,
    SyncDir,
    Rename,
    Remove,
    RemoveDir,
    Hear,
    Say,
}

/// A call that failed, where it was made, and the system's reason.
#[derive(Drop)]
pub struct NotedFault<A: Allocator> {
    call: Call,
    path: String<A>,
    error: io::Error,
}

impl<A: Allocator> NotedFault<A> {
    /// None where no memory is left for it. A call on a stream has no path.
    pub(crate) fn note(
        alloc: A,
        call: Call,
        path: &str,
        error: io::Error,
    ) -> Option<NotedFault<A>> {
        let path = String::from_str(alloc, path).ok()?;
        Some(NotedFault { call, path, error })
    }

    pub fn call(&self) -> Call {
        self.call
    }

    pub fn path(&self) -> &str {
        self.path.as_str()
    }

    pub fn error(&self) -> io::Error {
        self.error
    }
}

// What was tried, and what at.
fn words(call: Call) -> &'static str {
    match call {
        Call::Stat => "look up",
        Call::Read => "read",
        Call::Names => "list",
        Call::Make => "make",
        Call::MakeDir => "make directory",
        Call::Write => "write",
        Call::Cut => "cut",
        Call::Sync => "sync",
        Call::SyncDir => "sync directory",
        Call::Rename => "rename to",
        Call::Remove => "remove",
        Call::RemoveDir => "remove directory",
        Call::Hear => "read standard input",
        Call::Say => "write standard output",
    }
}

/// One line, whatever bytes the path has.
impl<A: Allocator> Display for NotedFault<A> {
    fn fmt<W: fmt::Write>(&self, f: &mut Formatter<W>) -> fmt::Result {
        match self.call {
            Call::Hear | Call::Say => write!(f, "{}: {}", words(self.call), self.error),
            _ => write!(
                f,
                "{} {:?}: {}",
                words(self.call),
                self.path.as_str(),
                self.error
            ),
        }
    }
}
