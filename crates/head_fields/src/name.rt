// The name of a field, at the front of its first line (RFC 5322, section 3.6.8).
ghost use Rattle.std.specs.Prelude.{◌≡◌, ◌<◌, ◌≤◌, length, IfNone, IfSome, OnSome, true, false};
ghost use Rattle.std.specs.List.{list_all, position_or_len};
ghost use Rattle.head_fields.specs.Fields.{begins_field, is_colon, is_name, is_name_byte, name_of};

use crate::blank::trim_end;
use memchr::memchr;

// The length of the name of the field that a line begins, and where its colon stands.
pub(crate) fn read_name(line: &[u8]) -> Option<(usize, usize)>
    ensures some { OnSome result (begins_field line.now ≡ true) }
    ensures none { IfNone result (begins_field line.now ≡ false) }
    ensures name { IfSome result (λ found. found.0 ≡ length (name_of line.now)) }
    ensures colon { IfSome result (λ found. found.1 ≡ position_or_len is_colon line.now) }
    ensures order { IfSome result (λ found. (found.0 ≤ found.1) × (found.1 < length line.now)) }
{
    let colon = memchr(b':', line)?;
    let name = trim_end(&line[..colon]);
    if is_name(name) {
        Some((name.len(), colon))
    } else {
        None
    }
}

fn is_name(name: &[u8]) -> bool
    ensures { result ≡ is_name name.now }
{
    !name.is_empty() && are_name_bytes(name)
}

fn are_name_bytes(bytes: &[u8]) -> bool
    ensures { result ≡ list_all is_name_byte bytes.now }
{
    bytes.iter().all(|byte| is_name_byte(*byte))
}

fn is_name_byte(byte: u8) -> bool
    ensures { result ≡ is_name_byte byte }
{
    (0x21..=0x7e).contains(&byte)
}
