// A part of a text.
ghost use Rattle.std.specs.Prelude.{◌≡◌, ◌≤◌, ◌+◌, ◌-◌, [], true, length, min, map, take, drop, get_or};
ghost use Rattle.mail_types.specs.Mailboxes.{has_no_nul};
ghost use Rattle.text_forms.specs.Lines.{clean_byte};

use mail_fields::Bytes;
use text_forms::clean_nul;

// Copies what stands in a text from a place on; spaces where it is too short.
fn put_part(text: &[u8], from: usize, part: &mut [u8])
    ensures part { from + length part.old ≤ length text.now → part.new ≡ take (length part.old) (drop from text.now) }
    ensures long { length part.new ≡ length part.old }
{
    if from <= text.len() && part.len() <= text.len() - from {
        let rest = text.split_at(from).1;
        part.copy_from_slice(rest.split_at(part.len()).0);
    } else {
        part.fill(b' ');
    }
}

// The same without NUL.
#[tactic(auto, using(unix_form::proofs::NoNul::clean_found))]
fn fill_part(text: &[u8], from: usize, part: &mut [u8])
    ensures part { from + length part.old ≤ length text.now → part.new ≡ map clean_byte (take (length part.old) (drop from text.now)) }
    ensures clean { has_no_nul part.new ≡ true }
{
    put_part(text, from, part);
    clean_nul(part);
}

// The text at a place; no byte where none stands there.
fn text_at(texts: &[Bytes], place: usize) -> &[u8]
    ensures { result.now ≡ get_or texts.now place [] }
{
    match texts.get(place) {
        Some(text) => text.as_slice(),
        None => &[],
    }
}

/// Fills the buffer with a text at a place, of this size, from a place in it.
pub fn copy_text(texts: &[Bytes], place: usize, size: usize, from: usize, buf: &mut [u8]) -> usize
    requires { from ≤ size }
    ensures count { result ≡ min (length buf.new) (size - from) }
    ensures bytes { size ≡ length (get_or texts.now place []) → take result buf.new ≡ map clean_byte (take result (drop from (get_or texts.now place []))) }
    ensures clean { has_no_nul (take result buf.new) ≡ true }
    ensures rest { drop result buf.new ≡ drop result buf.old }
{
    let count = buf.len().min(size - from);
    fill_part(text_at(texts, place), from, &mut buf[..count]);
    count
}
