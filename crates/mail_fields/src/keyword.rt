// Names of keywords (RFC 3501, section 2.3.2).
ghost use Rattle.std.specs.Prelude.{◌≡◌, ◌≤◌, ◌↔◌, List, ℕ, length, IfOk, IfSome, IfNone, IsTrue};
ghost use Rattle.std.specs.List.{list_all};
ghost use Rattle.mail_fields.specs.Keyword.{is_atom, IsKeyword, same_keyword};

use std::alloc::{AllocError, Global};
use std::marker::Model;

/// The name of a keyword, 1 to 64 atom bytes.
#[derive(Debug, Drop)]
pub struct Keyword {
    bytes: Vec<u8>,
}

impl Model for Keyword {
    ghost Value = { List ℕ };

    ghost view = { λ k. k.bytes.items };

    ghost invariant = { λ k. IsKeyword k.bytes.items };
}

// Whether a byte may stand in an atom (RFC 3501, section 9).
fn is_atom_byte(byte: u8) -> bool
    ensures { result ≡ is_atom byte }
{
    (33..=126).contains(&byte)
        && !matches!(byte, b'(' | b')' | b'{' | b'%' | b'*' | b'"' | b'\\' | b']')
}

fn are_atom_bytes(bytes: &[u8]) -> bool
    ensures { result ≡ list_all is_atom bytes.now }
{
    bytes.iter().all(|byte| is_atom_byte(*byte))
}

fn is_keyword(bytes: &[u8]) -> bool
    ensures { IsTrue result ↔ IsKeyword bytes.now }
{
    !bytes.is_empty() && bytes.len() <= 64 && are_atom_bytes(bytes)
}

impl Keyword {
    /// The keyword of a name, and none where the bytes are no name of one.
    pub fn read(alloc: Global, bytes: &[u8]) -> Result<Option<Keyword>, AllocError>
        ensures some { IfOk result (λ found. IfSome found (λ k. (k ≡ bytes.now) × IsKeyword k)) }
        ensures none { IfOk result (λ found. IfNone found (IsKeyword bytes.now → ⊥)) }
    {
        if !is_keyword(bytes) {
            return Ok(None);
        }
        let bytes = Vec::from_slice(alloc, bytes)?;
        Ok(Some(Keyword { bytes }))
    }

    /// Whether the name is the same but for the case of its letters.
    pub fn same(&self, other: &Keyword) -> bool
        ensures { result ≡ same_keyword self.now other.now }
    {
        self.as_slice().eq_ignore_ascii_case(other.as_slice())
    }

    /// The bytes of the name.
    pub fn as_slice(&self) -> &[u8]
        ensures bytes { result.now ≡ self.now }
        ensures short { length result.now ≤ 64 }
        ensures keyword { IsKeyword result.now }
    {
        self.bytes.as_slice()
    }

    /// An equal name.
    pub fn copy(&self, alloc: Global) -> Result<Keyword, AllocError>
        ensures { IfOk result (λ k. k ≡ self.now) }
    {
        let bytes = Vec::from_slice(alloc, self.bytes.as_slice())?;
        Ok(Keyword { bytes })
    }
}

/// The keyword names of a mailbox.
#[derive(Debug, Drop)]
pub struct Keywords {
    items: Vec<Keyword>,
}

impl Model for Keywords {
    ghost Value = { List (List ℕ) };

    ghost view = { λ b. b.items.items };
}

impl Keywords {
    pub fn of(items: Vec<Keyword>) -> Keywords
        ensures { result ≡ items.items }
    {
        Keywords { items }
    }

    pub fn as_slice(&self) -> &[Keyword]
        ensures { result.now ≡ self.now }
    {
        self.items.as_slice()
    }

    pub fn into_vec(self) -> Vec<Keyword>
        ensures { result.items ≡ self }
    {
        let Keywords { items } = self;
        items
    }
}
