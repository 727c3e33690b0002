// Names of mailboxes.
ghost use Rattle.std.specs.Prelude.{◌≡◌, ◌≤◌, List, ℕ, length, IfOk, OnOk, Some, true, IsTrue, string_bytes, bytes_eq, refl};
ghost use Rattle.file_model.specs.Images.{path_cmp};
ghost use Rattle.std.specs.List.{list_all};
ghost use Rattle.mail_fields.specs.Keyword.{same_keyword};
ghost use Rattle.std.proofs.Common.{rules};
ghost use Rattle.std.specs.Hash as fed;
ghost use Rattle.std.specs.Cmp.{partial_equiv_from_equiv};
ghost use Rattle.std.specs.Cmp.Lexicographic.{nat_list_eq_equiv, nat_list_cmp_total, texts_po, texts_ties};
ghost use Rattle.std.specs.Cmp.Rules.{hashing};
ghost use Rattle.mail_tree.specs.Names.{inbox, is_name_byte, is_part, is_path, ends_part, begins_inbox, begins_badly, with_inbox, may_be_name, read_name, IsName};

use memchr::memchr;
use std::alloc::{AllocError, Global};
use std::cmp::Ordering;
use std::hash::{Hash, Hasher};
use std::marker::Model;

/// The name of a mailbox or a directory, with INBOX in upper case.
#[derive(Debug, Drop)]
pub struct Name {
    text: String,
}

impl Model for Name {
    ghost Value = { List ℕ };

    ghost view = { λ name. string_bytes name.text };

    ghost invariant = { λ name. IsName (string_bytes name.text) };
}

impl PartialEq for Name {
    ghost eq = { λ one other. bytes_eq one other };

    ghost laws = { partial_equiv_from_equiv nat_list_eq_equiv };

    fn eq(&self, other: &Name) -> bool {
        self.text.as_str() == other.text.as_str()
    }
}

impl Eq for Name {
    ghost laws = { nat_list_eq_equiv };
}

impl PartialOrd for Name {
    ghost partial_cmp = { λ one other. Some (path_cmp one other) };

    ghost laws = { texts_po };

    fn partial_cmp(&self, other: &Name) -> Option<Ordering> {
        Some(self.text.as_str().cmp(other.text.as_str()))
    }
}

impl Ord for Name {
    ghost cmp = { path_cmp };

    ghost total = { nat_list_cmp_total };

    ghost matches_partial_cmp = { λ one other. refl };

    ghost matches_eq = { texts_ties };

    fn cmp(&self, other: &Name) -> Ordering {
        self.text.as_str().cmp(other.text.as_str())
    }
}

impl Hash for Name {
    ghost hash_input = { λ name. fed.str name };

    ghost respects_eq = { Prim.search (hashing, rules) };

    fn hash<H: Hasher>(&self, state: &mut H) {
        self.text.as_str().hash(state);
    }
}

fn is_name_byte(byte: u8) -> bool
    ensures { result ≡ is_name_byte byte }
{
    (32..=126).contains(&byte) && !matches!(byte, b'"' | b'\\' | b'%' | b'*' | b'/')
}

fn are_name_bytes(bytes: &[u8]) -> bool
    ensures { result ≡ list_all is_name_byte bytes.now }
{
    bytes.iter().all(|byte| is_name_byte(*byte))
}

fn is_part(part: &[u8]) -> bool
    ensures { result ≡ is_part part.now }
{
    if part.is_empty() || part.len() > 200 {
        return false;
    }
    if part.starts_with(b".") {
        return false;
    }
    are_name_bytes(part)
}

fn is_path(path: &[u8]) -> bool
    ensures { result ≡ is_path path.now }
{
    let mut rest = path;
    while let Some(at) = memchr(b'/', rest) {
        if !is_part(&rest[..at]) {
            return false;
        }
        rest = &rest[at + 1..];
    }
    is_part(rest)
}

fn ends_part(rest: &[u8]) -> bool
    ensures { result ≡ ends_part rest.now }
{
    match rest {
        [] => true,
        [byte, ..] => *byte == b'/',
    }
}

fn is_inbox(word: &[u8]) -> bool
    ensures { result ≡ same_keyword word.now inbox }
{
    word.eq_ignore_ascii_case(b"INBOX")
}

// Whether the first part is INBOX in any case.
fn begins_inbox(name: &[u8]) -> bool
    ensures value { result ≡ begins_inbox name.now }
    ensures long { IsTrue result → 5 ≤ length name.now }
{
    if name.len() < 5 {
        return false;
    }
    if !is_inbox(&name[..5]) {
        return false;
    }
    ends_part(&name[5..])
}

fn begins_badly(bytes: &[u8]) -> bool
    ensures { result ≡ begins_badly bytes.now }
{
    match bytes {
        [] => true,
        [byte, ..] => *byte == b'#' || *byte == b'~' || *byte == b'{',
    }
}

fn may_be_name(bytes: &[u8]) -> bool
    ensures { result ≡ may_be_name bytes.now }
{
    !begins_badly(bytes) && bytes.len() <= 255 && is_path(bytes)
}

// The bytes, with INBOX in upper case.
fn with_inbox(alloc: Global, bytes: &[u8]) -> Result<Vec<u8>, AllocError>
    ensures { IfOk result (λ own. own.items ≡ with_inbox bytes.now) }
{
    let mut own = Vec::new(alloc);
    if begins_inbox(bytes) {
        own.extend_from_slice(b"INBOX")?;
        own.extend_from_slice(&bytes[5..])?;
    } else {
        own.extend_from_slice(bytes)?;
    }
    Ok(own)
}

impl Name {
    // A name of its bytes.
    fn of(bytes: Vec<u8>) -> Option<Name>
        requires { IsName bytes.items }
        ensures { result ≡ Some bytes.items }
    {
        match String::from_utf8(bytes) {
            Ok(text) => Some(Name { text }),
            // no byte of a name is past 127
            Err(_) => None,
        }
    }

    /// The name that bytes are, and none where they are no name.
    pub fn read(alloc: Global, bytes: &[u8]) -> Result<Option<Name>, AllocError>
        ensures { IfOk result (λ found. found ≡ read_name bytes.now) }
    {
        if !may_be_name(bytes) {
            return Ok(None);
        }
        let own = with_inbox(alloc, bytes)?;
        Ok(Name::of(own))
    }

    /// The same name once more.
    pub fn copied(&self, alloc: Global) -> Result<Name, AllocError>
        ensures copy { IfOk result (λ copy. copy ≡ self.now) }
        ensures name { OnOk result (IsName self.now) }
    {
        let text = String::from_str(alloc, self.text.as_str())?;
        Ok(Name { text })
    }

    /// The bytes of the name.
    pub fn as_slice(&self) -> &[u8]
        ensures bytes { result.now ≡ self.now }
        ensures name { IsName result.now }
    {
        self.text.as_bytes()
    }

    /// The same as text.
    pub fn as_str(&self) -> &str
        ensures bytes { result.now ≡ self.now }
        ensures name { IsName result.now }
    {
        self.text.as_str()
    }
}
