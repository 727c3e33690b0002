// Whether a pattern of LIST matches a name.
ghost use Rattle.std.specs.Prelude.{◌≡◌, ◌≤◌, ◌<◌, ◌+◌, ◌&&◌, ◌||◌, ◌==◌, ◌++◌, List, ℕ, IfOk, IfSome, false, length, map, take, option_map};
ghost use Rattle.std.specs.Borrow.{Bor};
ghost use Rattle.std.specs.List.{AllByRecursion};
ghost use Rattle.mail_tree.specs.Listing.{fits, fits_name, ends_in_percent, upper};
ghost use Rattle.mail_tree.specs.Walks.{leads, is_wild, fixed_front};
ghost use Rattle.mail_tree.specs.Matching.{any_passes, any_row, byte_row, row_after, first_passes, goes_on};

use std::alloc::{AllocError, Global};
use std::marker::Model;

fn both(one: bool, other: bool) -> bool
    ensures { result ≡ (one && other) }
{
    one && other
}

fn either(one: bool, other: bool) -> bool
    ensures { result ≡ (one || other) }
{
    one || other
}

// Whether `*` or `%` passes the first byte.
fn may_pass(rest: &[u8], slash: bool) -> bool
    ensures { result ≡ first_passes (goes_on slash) rest.now }
{
    match rest {
        [] => false,
        [byte, ..] => !(slash && *byte == b'/'),
    }
}

fn begins_with(rest: &[u8], wanted: u8) -> bool
    ensures { result ≡ first_passes (λ byte. byte == wanted) rest.now }
{
    match rest {
        [] => false,
        [byte, ..] => *byte == wanted,
    }
}

// The row after any bytes, of which a slash may stop.
fn after_any(row: &mut [bool], name: &[u8], slash: bool)
    requires { length row.old ≡ length name.now + 1 }
    ensures { row.new ≡ any_row (goes_on slash) false row.old name.now }
{
    let mut carry = false;
    for place in 0..row.len() {
        let here = either(row[place], carry);
        row[place] = here;
        carry = both(here, may_pass(&name[place..], slash));
    }
}

// The row after one byte.
fn after_byte(row: &mut [bool], name: &[u8], wanted: u8)
    requires { length row.old ≡ length name.now + 1 }
    ensures { row.new ≡ byte_row wanted false row.old name.now }
{
    let mut carry = false;
    for place in 0..row.len() {
        let here = row[place];
        row[place] = carry;
        carry = both(here, begins_with(&name[place..], wanted));
    }
}

// The row after the first byte of a pattern.
fn after_one(row: &mut [bool], name: &[u8], wanted: u8)
    requires { length row.old ≡ length name.now + 1 }
    ensures row { row.new ≡ row_after wanted row.old name.now }
    ensures length { length row.new ≡ length row.old }
{
    match wanted {
        b'*' => after_any(row, name, false),
        b'%' => after_any(row, name, true),
        byte => after_byte(row, name, byte),
    }
}

// Whether a pattern matches, where the row has the name's first place alone.
fn fits_from(row: &mut [bool], pattern: &[u8], name: &[u8]) -> bool
    requires length { length row.old ≡ length name.now + 1 }
    ensures { result ≡ any_passes row.old (fits pattern.now) name.now }
{
    for wanted in pattern {
        after_one(row, name, *wanted);
    }
    row[name.len()]
}

// The same, with a row that has no place yet.
fn fits_in(row: &mut [bool], pattern: &[u8], name: &[u8]) -> bool
    requires length { length row.old ≡ length name.now + 1 }
    requires none { AllByRecursion (λ here. here ≡ false) row.old }
    ensures { result ≡ fits pattern.now name.now }
{
    row[0] = true;
    fits_from(row, pattern, name)
}

/// Whether a pattern matches a name of at most 255 bytes.
pub fn fits(pattern: &[u8], name: &[u8]) -> bool
    requires { length name.now ≤ 255 }
    ensures { result ≡ fits pattern.now name.now }
{
    let mut row = [false; 256];
    fits_in(&mut row[..name.len() + 1], pattern, name)
}

// Whether a beginning of the pattern matches, where the row has the text's first place alone.
fn leads_from(row: &mut [bool], pattern: &[u8], text: &[u8]) -> bool
    requires length { length row.old ≡ length text.now + 1 }
    ensures { result ≡ any_passes row.old (leads pattern.now) text.now }
{
    let mut found = false;
    for wanted in pattern {
        found = either(found, row[text.len()]);
        after_one(row, text, *wanted);
    }
    either(found, row[text.len()])
}

// The same, with a row that has no place yet.
fn leads_in(row: &mut [bool], pattern: &[u8], text: &[u8]) -> bool
    requires length { length row.old ≡ length text.now + 1 }
    requires none { AllByRecursion (λ here. here ≡ false) row.old }
    ensures { result ≡ leads pattern.now text.now }
{
    row[0] = true;
    leads_from(row, pattern, text)
}

// Whether some beginning of a pattern matches a text of at most 256 bytes.
fn leads(pattern: &[u8], text: &[u8]) -> bool
    requires { length text.now ≤ 256 }
    ensures { result ≡ leads pattern.now text.now }
{
    let mut row = [false; 257];
    leads_in(&mut row[..text.len() + 1], pattern, text)
}

fn is_wild(byte: u8) -> bool
    ensures { result ≡ is_wild byte }
{
    byte == b'*' || byte == b'%'
}

// The place of the last slash before all wildcards.
fn fixed_front(pattern: &[u8]) -> Option<usize>
    ensures within { IfSome result (λ place. place < length pattern.now) }
    ensures front { option_map (λ place. take place pattern.now) result ≡ fixed_front pattern.now }
{
    let mut found = None;
    for place in 0..pattern.len() {
        if is_wild(pattern[place]) {
            return found;
        }
        if pattern[place] == b'/' {
            found = Some(place);
        }
    }
    found
}

fn upper(byte: u8) -> u8
    ensures { result ≡ upper byte }
{
    if (b'a'..=b'z').contains(&byte) {
        byte - 32
    } else {
        byte
    }
}

// The same text in upper case.
fn upper_text(alloc: Global, text: &[u8]) -> Result<Vec<u8>, AllocError>
    ensures { IfOk result (λ own. own.items ≡ map upper text.now) }
{
    let mut own = Vec::new(alloc);
    for byte in text {
        own.push(upper(*byte))?;
    }
    Ok(own)
}

/// A pattern, and the same in upper case for INBOX.
#[derive(Drop)]
pub struct Pattern {
    text: Vec<u8>,
    capitals: Vec<u8>,
    ghost same: { capitals.items ≡ map upper text.items },
}

impl Model for Pattern {
    ghost Value = { List ℕ };

    ghost view = { λ pattern. pattern.text.items };
}

impl Pattern {
    /// The reference and then the pattern.
    pub fn of(alloc: Global, reference: &[u8], pattern: &[u8]) -> Result<Pattern, AllocError>
        ensures { IfOk result (λ whole. whole ≡ reference.now ++ pattern.now) }
    {
        let mut text = Vec::new(alloc);
        text.extend_from_slice(reference)?;
        text.extend_from_slice(pattern)?;
        let capitals = upper_text(alloc, text.as_slice())?;
        Ok(Pattern { text, capitals })
    }

    /// Whether it matches a name, INBOX in any case.
    pub fn fits(&self, name: &[u8]) -> bool
        requires { length name.now ≤ 255 }
        ensures { result ≡ fits_name self.now name.now }
    {
        if fits(self.text.as_slice(), name) {
            return true;
        }
        name == b"INBOX".as_slice() && fits(self.capitals.as_slice(), b"INBOX")
    }

    /// Whether names that begin with a text may match: some beginning of the pattern matches the text.
    pub fn leads(&self, text: &[u8]) -> bool
        requires { length text.now ≤ 256 }
        ensures { result ≡ leads self.now text.now }
    {
        leads(self.text.as_slice(), text)
    }

    /// What all names that match begin with, if it is a directory: the text before the last slash that stands before all wildcards.
    pub fn front(&self) -> Option<&[u8]>
        ensures { option_map (λ (front : Bor (List ℕ)). front.now) result ≡ fixed_front self.now }
    {
        match fixed_front(self.text.as_slice()) {
            Some(place) => Some(&self.text.as_slice()[..place]),
            None => None,
        }
    }

    /// Whether it asks for the directories above names too.
    pub fn ends_in_percent(&self) -> bool
        ensures { result ≡ ends_in_percent self.now }
    {
        self.text.as_slice().ends_with(b"%")
    }
}
