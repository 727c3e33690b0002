// Bytes and tokens of a command.
ghost use Rattle.std.specs.Prelude.{◌≡◌, ◌≤◌, ◌<◌, true, length, IfOk};
ghost use Rattle.std.specs.List.{prefix_len, list_all};
ghost use Rattle.mail_fields.specs.Keyword.{is_atom};
ghost use Rattle.imap_arguments.specs.Readings.{Gives};
ghost use Rattle.imap_arguments.specs.Tokens.{broken_off, begins, byte_at, token_at};

use crate::reason::{Reason, Refused};

/// Something is missing where the command ends, and not understood where other bytes stand.
pub fn broken_off(bytes: &[u8]) -> Reason
    ensures { result ≡ broken_off bytes.now }
{
    if bytes.is_empty() {
        Reason::Missing
    } else {
        Reason::NotUnderstood
    }
}

/// Whether a byte stands at the front.
pub fn begins(byte: u8, bytes: &[u8]) -> bool
    ensures { result ≡ begins byte bytes.now }
{
    match bytes {
        [first, ..] => *first == byte,
        _ => false,
    }
}

/// What stands behind a byte that must stand at the front.
pub fn byte_at(byte: u8, bytes: &[u8]) -> Result<&[u8], Refused>
    ensures value { Gives (λ rest. rest.now) result (byte_at byte bytes.now) }
    ensures shorter { IfOk result (λ rest. length rest.now < length bytes.now) }
{
    if begins(byte, bytes) {
        Ok(&bytes[1..])
    } else {
        Err(Refused::Bad(broken_off(bytes)))
    }
}

/// Whether a byte may stand in an atom.
pub fn is_atom_byte(byte: u8) -> bool
    ensures { result ≡ is_atom byte }
{
    (33..=126).contains(&byte)
        && !matches!(byte, b'(' | b')' | b'{' | b'%' | b'*' | b'"' | b'\\' | b']')
}

// How many atom bytes stand at the front.
pub(crate) fn atoms(bytes: &[u8]) -> usize
    ensures value { result ≡ prefix_len is_atom bytes.now }
    ensures within { result ≤ length bytes.now }
{
    bytes.iter().take_while(|byte| is_atom_byte(**byte)).count()
}

/// The longest run of atom bytes at the front, and what stands behind it.
#[tactic(auto, using(crate::proofs::Atoms::all_in_front), unfolding(crate::specs::Tokens::token_at))]
pub fn token_at(bytes: &[u8]) -> Result<(&[u8], &[u8]), Refused>
    ensures value { Gives (λ x. (x.0.now, x.1.now)) result (token_at bytes.now) }
    ensures some { IfOk result (λ x. 0 < length x.0.now) }
    ensures atoms { IfOk result (λ x. list_all is_atom x.0.now ≡ true) }
{
    let width = atoms(bytes);
    if width == 0 {
        return Err(Refused::Bad(broken_off(bytes)));
    }
    Ok((&bytes[..width], &bytes[width..]))
}
