// The addresses of a list.
use mail_fields::Bytes;

/// An address, or the begin or the end of a group of them (RFC 5322, section 3.4).
#[derive(Debug, Drop)]
pub enum Address {
    /// A mailbox; the host is empty where the list has a local part alone.
    Mailbox {
        name: Option<Bytes>,
        route: Option<Bytes>,
        local: Bytes,
        host: Bytes,
    },
    /// The name of a group, whose members follow up to its end.
    GroupStart(Bytes),
    GroupEnd,
}
