// Tags of commands.
ghost use Rattle.std.specs.Prelude.{◌≡◌, ◌≤◌, length, IfSome};
ghost use Rattle.std.specs.Option.{option_map};
ghost use Rattle.std.specs.List.{prefix_len};
ghost use Rattle.imap_arguments.specs.Tags.{is_tag_byte, tag_of};

use crate::token::{begins, is_atom_byte};
use std::marker::Model;

/// The tag of a command, at most 64 bytes in place (RFC 3501, section 2.2.1).
#[derive(Clone, Copy, Debug, PartialEq, Eq)]
pub struct Tag {
    bytes: [u8; 64],
    len: usize,
}

impl Model for Tag {
    ghost use Rattle.std.specs.Prelude.{◌≡◌, ◌≤◌, ◌-◌, ◌++◌, List, ℕ, length, take, drop, replicate};

    ghost Value = { List ℕ };

    ghost use Rattle.imap_arguments.specs.InPlace.{tag_back};

    ghost view = { λ t. take t.len t.bytes };

    ghost invariant = { λ t. (length t.bytes ≡ 64) × (t.len ≤ 64) × (drop t.len t.bytes ≡ replicate (64 - t.len) 0) };

    ghost inverse = { λ d. record { bytes = d ++ replicate (64 - length d) 0; len = length d } };

    ghost inverse_ok = { λ a h. tag_back a h };
}

impl Tag {
    /// The tag of these bytes.
    pub fn of(bytes: &[u8]) -> Tag
        requires { length bytes.now ≤ 64 }
        ensures { result ≡ bytes.now }
    {
        let mut own = [0; 64];
        own[..bytes.len()].copy_from_slice(bytes);
        Tag {
            bytes: own,
            len: bytes.len(),
        }
    }

    pub fn as_slice(&self) -> &[u8]
        ensures value { result.now ≡ self.now }
        ensures short { length result.now ≤ 64 }
    {
        &self.bytes[..self.len]
    }
}

fn is_tag_byte(byte: u8) -> bool
    ensures { result ≡ is_tag_byte byte }
{
    is_atom_byte(byte) && byte != b'+'
}

// How many bytes of a tag stand at the front.
fn tag_width(bytes: &[u8]) -> usize
    ensures value { result ≡ prefix_len is_tag_byte bytes.now }
    ensures within { result ≤ length bytes.now }
{
    bytes.iter().take_while(|byte| is_tag_byte(**byte)).count()
}

/// The tag at the front of a command.
#[tactic(auto, unfolding(crate::specs::Tags::tag_of))]
pub fn tag_of(bytes: &[u8]) -> Option<&[u8]>
    ensures value { option_map (λ tag. tag.now) result ≡ tag_of bytes.now }
    ensures short { IfSome result (λ tag. length tag.now ≤ 64) }
{
    let width = tag_width(bytes);
    if width < 1 || width > 64 {
        return None;
    }
    if width != bytes.len() && !begins(b' ', &bytes[width..]) {
        return None;
    }
    Some(&bytes[..width])
}
