// The session and the selected mailbox.
ghost use Rattle.std.specs.Prelude.{◌≡◌, ◌≤◌, List, ℕ, length, option_map, string_bytes, IfSome, IfNone, None};
ghost use Rattle.std.specs.Borrow.{Bor};
ghost use Rattle.imap_session.specs.State.{next_fresh};
ghost use Rattle.imap_session.specs.Endings.{is_read_only, open_name};

use mail_fields::Numbers;
use mail_tree::Name;
use std::alloc::Global;
use std::marker::Model;

/// The path of the directory whose mailboxes are served. It isn't empty.
#[derive(Drop)]
pub struct Root {
    path: String,
}

impl Model for Root {
    ghost use Rattle.std.specs.Prelude.{List, ℕ, ◌≤◌, length, string_bytes};

    ghost Value = { List ℕ };

    ghost view = { λ root. string_bytes root.path };

    ghost invariant = { λ root. 1 ≤ length (string_bytes root.path) };
}

impl Root {
    pub fn of(path: String) -> Option<Root>
        ensures some { IfSome result (λ root. root ≡ string_bytes path) }
        ensures none { IfNone result (length (string_bytes path) ≡ 0) }
    {
        if path.is_empty() {
            return None;
        }
        Some(Root { path })
    }

    pub fn as_str(&self) -> &str
        ensures value { result.now ≡ self.now }
        ensures some { 1 ≤ length result.now }
    {
        self.path.as_str()
    }
}

/// A UIDVALIDITY that a command may give. It isn't 0.
#[derive(Drop)]
pub struct Fresh {
    number: u32,
}

impl Model for Fresh {
    ghost use Rattle.std.specs.Prelude.{ℕ, ◌≤◌};

    ghost Value = { ℕ };

    ghost view = { λ fresh. fresh.number };

    ghost invariant = { λ fresh. 1 ≤ fresh.number };
}

impl Fresh {
    pub fn at(moment: u32) -> Fresh
        requires { 1 ≤ moment }
        ensures { result ≡ moment }
    {
        Fresh { number: moment }
    }

    pub fn number(&self) -> u32
        ensures value { result ≡ self.now }
        ensures some { 1 ≤ result }
    {
        self.number
    }

    /// That of the next command, which goes on from 1 past 32 bits.
    pub fn next(&self) -> Fresh
        ensures { result ≡ next_fresh self.now }
    {
        if self.number == u32::MAX {
            Fresh { number: 1 }
        } else {
            Fresh {
                number: self.number + 1,
            }
        }
    }
}

/// The selected mailbox.
#[derive(Drop)]
pub struct Open<S> {
    pub name: Name,
    pub read_only: bool,
    /// The UIDs of the messages that are recent in this session.
    pub recent: Numbers,
    pub store: S,
}

/// A session over the mailboxes below a root.
#[derive(Drop)]
pub struct Session<S> {
    pub root: Root,
    /// The seconds since 1970 as the session began; APPEND without a date takes them.
    pub moment: u32,
    /// The UIDVALIDITY that the command at hand gives.
    pub fresh: Fresh,
    pub selected: Option<Open<S>>,
    pub alloc: Global,
}

/// Whether the selected mailbox is read-only.
pub fn is_read_only<S>(session: &Session<S>) -> bool
    ensures { result ≡ is_read_only session.now.selected }
{
    match &session.selected {
        Some(open) => open.read_only,
        None => false,
    }
}

impl<S> Session<S> {
    /// A session in which no command came yet.
    pub fn new(alloc: Global, root: Root, moment: u32) -> Session<S>
        requires { 1 ≤ moment }
        ensures root { result.root ≡ root }
        ensures moment { result.moment ≡ moment }
        ensures fresh { result.fresh ≡ moment }
        ensures selected { result.selected ≡ None }
    {
        Session {
            root,
            moment,
            fresh: Fresh::at(moment),
            selected: None,
            alloc,
        }
    }

    /// Counts a command.
    pub fn count(&mut self)
        ensures { self.new ≡ record self.old { fresh = next_fresh self.old.fresh } }
    {
        self.fresh = self.fresh.next();
    }
}

/// The name of the selected mailbox.
pub fn selected_name<S>(session: &Session<S>) -> Option<&Name>
    ensures { option_map (λ (s : Bor (List ℕ)). s.now) result ≡ open_name session.now.selected }
{
    match &session.selected {
        Some(open) => Some(&open.name),
        None => None,
    }
}
