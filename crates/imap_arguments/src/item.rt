// What FETCH and STATUS ask for.
ghost use Rattle.std.specs.Prelude.{◌≡◌, ◌≤◌, [], length, IfOk};
ghost use Rattle.std.specs.Option.{option_map};
ghost use Rattle.std.specs.List.{prefix_len};
ghost use Rattle.imap_arguments.specs.Readings.{Gives};
ghost use Rattle.imap_arguments.specs.Items.{plain_item, plain_rfc822, is_item_byte, part_at, word_item, item_at, add_item, inner_items_at, item_list_at, macro_items, fetch_items_at, status_item, status_at, add_status, inner_statuses_at, status_list_at};

use crate::reason::{Reason, Refused};
use crate::section::{Section, partial_at, section_at};
use crate::token::{atoms, begins, broken_off, byte_at, is_atom_byte, token_at};
use mail_fields::Bytes;
use std::alloc::{AllocError, Global};
use std::collections::VecDeque;
use std::marker::Model;

/// What FETCH asks of a message (RFC 3501, section 6.4.5).
#[derive(Debug, Drop)]
pub enum Item {
    Flags,
    InternalDate,
    Size,
    Envelope,
    Body,
    BodyStructure,
    Uid,
    Rfc822,
    Rfc822Header,
    Rfc822Text,
    /// A section, perhaps an offset and a count of its bytes, and whether the message stays unseen.
    Part(Section, Option<(u32, u32)>, bool),
}

/// What STATUS asks of a mailbox (RFC 3501, section 6.3.10).
#[derive(Clone, Copy, Debug, PartialEq, Eq)]
pub enum StatusItem {
    Messages,
    Recent,
    UidNext,
    UidValidity,
    Unseen,
}

/// Items of FETCH, in the order asked.
#[derive(Debug, Drop)]
pub struct FetchItems {
    items: Vec<Item>,
}

impl Model for FetchItems {
    ghost use Rattle.std.specs.Prelude.{List};
    ghost use Rattle.imap_arguments.specs.declared.item.Item.{Item};

    ghost Value = { List Item };

    ghost view = { λ b. b.items.items };
}

impl FetchItems {
    pub fn of(items: Vec<Item>) -> FetchItems
        ensures { result ≡ items.items }
    {
        FetchItems { items }
    }

    pub fn as_slice(&self) -> &[Item]
        ensures { result.now ≡ self.now }
    {
        self.items.as_slice()
    }

    pub fn into_vec(self) -> Vec<Item>
        ensures { result.items ≡ self }
    {
        let FetchItems { items } = self;
        items
    }
}

/// Items of STATUS, in the order asked.
#[derive(Debug, Drop)]
pub struct StatusItems {
    items: Vec<StatusItem>,
}

impl Model for StatusItems {
    ghost use Rattle.std.specs.Prelude.{List};
    ghost use Rattle.imap_arguments.specs.declared.item.StatusItem.{StatusItem};

    ghost Value = { List StatusItem };

    ghost view = { λ b. b.items.items };
}

impl StatusItems {
    pub fn of(items: Vec<StatusItem>) -> StatusItems
        ensures { result ≡ items.items }
    {
        StatusItems { items }
    }

    pub fn as_slice(&self) -> &[StatusItem]
        ensures { result.now ≡ self.now }
    {
        self.items.as_slice()
    }

    pub fn into_vec(self) -> Vec<StatusItem>
        ensures { result.items ≡ self }
    {
        let StatusItems { items } = self;
        items
    }
}

// The item of one word, in any letter case.
fn plain_item(word: &[u8]) -> Option<Item>
    ensures { result ≡ plain_item word.now }
{
    if word.eq_ignore_ascii_case(b"FLAGS") {
        return Some(Item::Flags);
    }
    if word.eq_ignore_ascii_case(b"INTERNALDATE") {
        return Some(Item::InternalDate);
    }
    if word.eq_ignore_ascii_case(b"RFC822.SIZE") {
        return Some(Item::Size);
    }
    if word.eq_ignore_ascii_case(b"ENVELOPE") {
        return Some(Item::Envelope);
    }
    if word.eq_ignore_ascii_case(b"BODY") {
        return Some(Item::Body);
    }
    if word.eq_ignore_ascii_case(b"BODYSTRUCTURE") {
        return Some(Item::BodyStructure);
    }
    if word.eq_ignore_ascii_case(b"UID") {
        return Some(Item::Uid);
    }
    plain_rfc822(word)
}

fn plain_rfc822(word: &[u8]) -> Option<Item>
    ensures { result ≡ plain_rfc822 word.now }
{
    if word.eq_ignore_ascii_case(b"RFC822") {
        return Some(Item::Rfc822);
    }
    if word.eq_ignore_ascii_case(b"RFC822.HEADER") {
        return Some(Item::Rfc822Header);
    }
    if word.eq_ignore_ascii_case(b"RFC822.TEXT") {
        return Some(Item::Rfc822Text);
    }
    None
}

fn is_item_byte(byte: u8) -> bool
    ensures { result ≡ is_item_byte byte }
{
    is_atom_byte(byte) && byte != b'['
}

// How many bytes of an item's word stand at the front.
fn word_width(bytes: &[u8]) -> usize
    ensures value { result ≡ prefix_len is_item_byte bytes.now }
    ensures within { result ≤ length bytes.now }
{
    bytes.iter().take_while(|byte| is_item_byte(**byte)).count()
}

// A section and perhaps a part of it.
#[tactic(auto, unfolding(crate::specs::Items::part_at))]
fn part_at<'a>(
    alloc: Global,
    peek: bool,
    bytes: &'a [u8],
    literals: &mut VecDeque<Bytes>,
) -> Result<(Item, &'a [u8]), Refused>
    ensures { Gives (λ x. record { item = x.0; rest = x.1.now; literals = literals.new.items }) result (part_at peek bytes.now literals.old.items) }
{
    let (section, behind) = section_at(alloc, bytes, literals)?;
    let (partial, rest) = partial_at(behind)?;
    Ok((Item::Part(section, partial, peek), rest))
}

// The item of a word, which may have a section behind it.
#[tactic(auto, unfolding(crate::specs::Items::word_item))]
fn word_item<'a>(
    alloc: Global,
    word: &[u8],
    bytes: &'a [u8],
    literals: &mut VecDeque<Bytes>,
) -> Result<(Item, &'a [u8]), Refused>
    ensures { Gives (λ x. record { item = x.0; rest = x.1.now; literals = literals.new.items }) result (word_item word.now bytes.now literals.old.items) }
{
    if word.eq_ignore_ascii_case(b"BODY.PEEK") {
        return part_at(alloc, true, bytes, literals);
    }
    if !begins(b'[', bytes) {
        return match plain_item(word) {
            Some(item) => Ok((item, bytes)),
            None => Err(Refused::Bad(Reason::NotUnderstood)),
        };
    }
    if word.eq_ignore_ascii_case(b"BODY") {
        return part_at(alloc, false, bytes, literals);
    }
    Err(Refused::Bad(Reason::NotUnderstood))
}

#[tactic(auto, unfolding(crate::specs::Items::item_at))]
fn item_at<'a>(
    alloc: Global,
    bytes: &'a [u8],
    literals: &mut VecDeque<Bytes>,
) -> Result<(Item, &'a [u8]), Refused>
    ensures { Gives (λ x. record { item = x.0; rest = x.1.now; literals = literals.new.items }) result (item_at bytes.now literals.old.items) }
{
    let width = word_width(bytes);
    if width == 0 {
        return Err(Refused::Bad(broken_off(bytes)));
    }
    word_item(alloc, &bytes[..width], &bytes[width..], literals)
}

// An item more behind those that are read.
fn add_item<'a>(
    alloc: Global,
    items: &mut Vec<Item>,
    literals: &mut VecDeque<Bytes>,
    bytes: &'a [u8],
) -> Result<&'a [u8], Refused>
    ensures { Gives (λ rest. (record { items = items.new.items; literals = literals.new.items }, rest.now)) result (add_item (record { items = items.old.items; literals = literals.old.items }) bytes.now) }
{
    let (item, rest) = item_at(alloc, bytes, literals)?;
    items.push(item)?;
    Ok(rest)
}

// Items with a space between them.
fn inner_items_at<'a>(
    alloc: Global,
    literals: &mut VecDeque<Bytes>,
    bytes: &'a [u8],
) -> Result<(Vec<Item>, &'a [u8]), Refused>
    ensures { Gives (λ x. (record { items = x.0.items; literals = literals.new.items }, x.1.now)) result (inner_items_at bytes.now literals.old.items) }
{
    let mut items = Vec::new(alloc);
    let mut rest = bytes;
    for _ in 0..bytes.len() {
        let behind = add_item(alloc, &mut items, literals, rest)?;
        if !begins(b' ', behind) {
            return Ok((items, behind));
        }
        rest = &behind[1..];
    }
    Err(Refused::Bad(broken_off(rest)))
}

#[tactic(auto, unfolding(crate::specs::Items::item_list_at))]
fn item_list_at<'a>(
    alloc: Global,
    literals: &mut VecDeque<Bytes>,
    bytes: &'a [u8],
) -> Result<(FetchItems, &'a [u8]), Refused>
    ensures { Gives (λ x. (record { items = x.0; literals = literals.new.items }, x.1.now)) result (item_list_at bytes.now literals.old.items) }
{
    let inner = byte_at(b'(', bytes)?;
    let (items, behind) = inner_items_at(alloc, literals, inner)?;
    let rest = byte_at(b')', behind)?;
    Ok((FetchItems::of(items), rest))
}

// The items that FAST, ALL and FULL stand for, if a word is one of these.
fn macro_items(alloc: Global, word: &[u8]) -> Result<Option<Vec<Item>>, AllocError>
    ensures { IfOk result (λ found. option_map (λ v. v.items) found ≡ macro_items word.now) }
{
    let is_full = word.eq_ignore_ascii_case(b"FULL");
    let has_envelope = is_full || word.eq_ignore_ascii_case(b"ALL");
    if !has_envelope && !word.eq_ignore_ascii_case(b"FAST") {
        return Ok(None);
    }
    let mut items = Vec::new(alloc);
    items.push(Item::Flags)?;
    items.push(Item::InternalDate)?;
    items.push(Item::Size)?;
    if has_envelope {
        items.push(Item::Envelope)?;
    }
    if is_full {
        items.push(Item::Body)?;
    }
    Ok(Some(items))
}

/// What FETCH asks for: a list, one of FAST, ALL and FULL, or one item.
#[tactic(auto, unfolding(crate::specs::Items::fetch_items_at))]
pub fn fetch_items_at<'a>(
    alloc: Global,
    bytes: &'a [u8],
    literals: &mut VecDeque<Bytes>,
) -> Result<(FetchItems, &'a [u8]), Refused>
    ensures { Gives (λ x. (record { items = x.0; literals = literals.new.items }, x.1.now)) result (fetch_items_at bytes.now literals.old.items) }
{
    if begins(b'(', bytes) {
        return item_list_at(alloc, literals, bytes);
    }
    let width = atoms(bytes);
    if let Some(items) = macro_items(alloc, &bytes[..width])? {
        return Ok((FetchItems::of(items), &bytes[width..]));
    }
    let mut items = Vec::new(alloc);
    let rest = add_item(alloc, &mut items, literals, bytes)?;
    Ok((FetchItems::of(items), rest))
}

// An item of STATUS, in any letter case.
fn status_item(word: &[u8]) -> Option<StatusItem>
    ensures { result ≡ status_item word.now }
{
    if word.eq_ignore_ascii_case(b"MESSAGES") {
        return Some(StatusItem::Messages);
    }
    if word.eq_ignore_ascii_case(b"RECENT") {
        return Some(StatusItem::Recent);
    }
    if word.eq_ignore_ascii_case(b"UIDNEXT") {
        return Some(StatusItem::UidNext);
    }
    if word.eq_ignore_ascii_case(b"UIDVALIDITY") {
        return Some(StatusItem::UidValidity);
    }
    if word.eq_ignore_ascii_case(b"UNSEEN") {
        return Some(StatusItem::Unseen);
    }
    None
}

#[tactic(auto, unfolding(crate::specs::Items::status_at))]
fn status_at(bytes: &[u8]) -> Result<(StatusItem, &[u8]), Refused>
    ensures { Gives (λ x. (x.0, x.1.now)) result (status_at bytes.now) }
{
    let (word, rest) = token_at(bytes)?;
    match status_item(word) {
        Some(item) => Ok((item, rest)),
        None => Err(Refused::Bad(Reason::NotUnderstood)),
    }
}

// An item more behind those that are read.
fn add_status<'a>(items: &mut Vec<StatusItem>, bytes: &'a [u8]) -> Result<&'a [u8], Refused>
    ensures { Gives (λ rest. (items.new.items, rest.now)) result (add_status items.old.items bytes.now) }
{
    let (item, rest) = status_at(bytes)?;
    items.push(item)?;
    Ok(rest)
}

fn inner_statuses_at(alloc: Global, bytes: &[u8]) -> Result<(Vec<StatusItem>, &[u8]), Refused>
    ensures { Gives (λ x. (x.0.items, x.1.now)) result (inner_statuses_at bytes.now) }
{
    let mut items = Vec::new(alloc);
    let mut rest = bytes;
    for _ in 0..bytes.len() {
        let behind = add_status(&mut items, rest)?;
        if !begins(b' ', behind) {
            return Ok((items, behind));
        }
        rest = &behind[1..];
    }
    Err(Refused::Bad(broken_off(rest)))
}

/// Items of STATUS in parentheses.
#[tactic(auto, unfolding(crate::specs::Items::status_list_at))]
pub fn status_list_at(alloc: Global, bytes: &[u8]) -> Result<(StatusItems, &[u8]), Refused>
    ensures { Gives (λ x. (x.0, x.1.now)) result (status_list_at bytes.now) }
{
    let inner = byte_at(b'(', bytes)?;
    let (items, behind) = inner_statuses_at(alloc, inner)?;
    let rest = byte_at(b')', behind)?;
    Ok((StatusItems::of(items), rest))
}
