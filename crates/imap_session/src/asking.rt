// The mailbox that a name asks for.
ghost use Rattle.std.specs.Prelude.{◌≡◌, is_some, IfSome, Some};
ghost use Rattle.imap_session.specs.Asking.{is_named};

use crate::session::{Open, Session};
use mail_tree::Name;

/// The selected mailbox, where it has this name.
pub fn selected_named<'a, S>(session: &'a Session<S>, name: &Name) -> Option<&'a Open<S>>
    ensures named { is_some result ≡ is_named session.now.selected name.now }
    ensures selected { IfSome result (λ o. session.now.selected ≡ Some o.now) }
{
    match &session.selected {
        Some(open) => { if open.name == *name { Some(open) } else { None } }
        None => None,
    }
}
