// Which records a file has after a change, and where.
ghost use Rattle.std.specs.Prelude.{◌≡◌, ◌≤◌, ◌<◌, ◌+◌, ◌-◌, ◌*◌, ◌/◌, ◌%◌, ◌^◌, ◌++◌, ◌∷◌, [], if◌then◌else◌, drop, length, IfOk, IfSome, OnOk};
ghost use Rattle.std.specs.List.{AllByRecursion};
ghost use Rattle.mail_types.specs.declared.driver.Driver.TheVariants.{Mbx};
ghost use Rattle.mail_types.specs.Drivers.{keeps_of};
ghost use Rattle.mail_types.specs.Flags.{flag_bits, has_bit};
ghost use Rattle.mail_types.specs.Lists.{RiseBelow};
ghost use Rattle.store_trait.specs.Changes.{CanChange};
ghost use Rattle.store_index.specs.Steps.{change_of};
ghost use Rattle.mbx_form.specs.Form.{is_append};
ghost use Rattle.mbx_store.specs.Places.{IsNear};
ghost use Rattle.mbx_store.specs.Plans.{head_width, head_over, kept_piece, message_piece, end_of, next_piece, behind, as_list, end_after, left_pieces, end_from, new_place, added_pieces, HasRoom, unmarked_places, undropped_places, left_places, added_by, is_dropped, is_kept, IsPlan, chosen_places};

use crate::place::{MbxPlace, is_marked};
use mail_types::{FILE_LIMIT, Flags, NewMessage};
use mbx_form::MbxHead;
use std::alloc::{AllocError, Global};
use store_index::{Step, Told};
use store_trait::Info;

// No list of bytes is longer.
const LONGEST: u64 = 1 << 62;

/// A record of the file after a change: where its bytes, or for a message its text, stand in the file before; the head that is
/// written of a message; and its place.
#[derive(Clone, Copy, Debug)]
pub(crate) struct Piece {
    pub(crate) from: u64,
    pub(crate) head: Option<MbxHead>,
    pub(crate) place: MbxPlace,
}

/// The records that a change leaves of a file and those that it adds, and how long the file is then.
#[derive(Debug, Drop)]
pub(crate) struct Plan {
    pub(crate) left: Vec<Piece>,
    pub(crate) added: Vec<Piece>,
    pub(crate) long: u64,
}

/// The length of the head of a message of a size.
pub(crate) fn head_width(size: u64) -> u64
    ensures is { result ≡ head_width size }
    ensures short { result ≤ 91 }
{
    let mut digits = itoa::Buffer::new();
    51 + digits.format(size).len() as u64
}

// Keyword bits of a message, with the bits past the names that its record has.
fn words_over(names: usize, words: u32, old: u32) -> u32
    requires { names ≤ 30 }
    ensures { result ≡ words % 2 ^ names + 2 ^ names * (old / 2 ^ names) }
{
    words % (1 << names) + (1 << names) * (old / (1 << names))
}

// Flag bits of a message, with the other bits that its record has.
fn bits_over(flags: Flags, old: u16) -> u16
    ensures { result ≡ flag_bits flags + 64 * (old / 64) }
{
    flags.bits() + 64 * (old / 64)
}

// A record that is no message stays.
fn kept_piece(at: u64, old: &MbxPlace) -> Piece
    ensures { result ≡ kept_piece at old.now }
{
    Piece {
        from: old.at,
        head: None,
        place: MbxPlace { at, ..*old },
    }
}

// A message in the place of a record.
fn message_piece(at: u64, names: usize, old: &MbxPlace, info: &Info) -> Piece
    requires few { names ≤ 30 }
    requires near { IsNear old.now }
    ensures is { result ≡ message_piece at names old.now info.now }
    ensures room { at ≤ 2 ^ 62 → end_of result ≤ 2 ^ 63 + 2 ^ 62 + 91 }
{
    let head = MbxHead {
        stamp: info.stamp,
        size: old.size,
        words: words_over(names, info.words, old.words),
        bits: bits_over(info.flags, old.bits),
        uid: info.uid,
    };
    Piece {
        from: old.at + old.head,
        head: Some(head),
        place: MbxPlace {
            at,
            head: head_width(old.size),
            size: old.size,
            words: head.words,
            bits: head.bits,
        },
    }
}

// What stands in the place of a record: itself, or the next message.
fn next_piece(at: u64, names: usize, old: &MbxPlace, rest: &[Info]) -> Option<Piece>
    requires few { names ≤ 30 }
    requires near { IsNear old.now }
    ensures is { result ≡ next_piece at names old.now rest.now }
    ensures room { at ≤ 2 ^ 62 → IfSome result (λ q. end_of q ≤ 2 ^ 63 + 2 ^ 62 + 91) }
{
    if is_marked(old.bits) {
        return Some(kept_piece(at, old));
    }
    match rest.first() {
        Some(info) => Some(message_piece(at, names, old, info)),
        None => None,
    }
}

// The messages that come behind a record.
fn behind<'a>(old: &MbxPlace, rest: &'a [Info]) -> &'a [Info]
    ensures { result.now ≡ behind old.now rest.now }
{
    if is_marked(old.bits) || rest.is_empty() {
        rest
    } else {
        &rest[1..]
    }
}

// Appends a record, if there is one, and gives the byte behind it.
fn put_piece(pieces: &mut Vec<Piece>, at: u64, piece: Option<Piece>) -> Result<u64, AllocError>
    requires short { at ≤ 2 ^ 62 }
    requires room { IfSome piece (λ q. end_of q ≤ 2 ^ 63 + 2 ^ 62 + 91) }
    ensures pieces { IfOk result (λ end. pieces.new.items ≡ pieces.old.items ++ as_list piece) }
    ensures end { IfOk result (λ end. end ≡ end_after at piece) }
    ensures room { IfOk result (λ end. IfSome piece HasRoom) }
    ensures short { IfOk result (λ end. end ≤ 2 ^ 62) }
{
    let Some(piece) = piece else {
        return Ok(at);
    };
    let end = piece.place.at + piece.place.head + piece.place.size;
    if end > LONGEST {
        return Err(AllocError);
    }
    pieces.push(piece)?;
    Ok(end)
}

// Messages in the places of records.
fn left_pieces(
    alloc: Global,
    names: usize,
    olds: &[MbxPlace],
    infos: &[Info],
) -> Result<(Vec<Piece>, u64), AllocError>
    requires few { names ≤ 30 }
    requires near { AllByRecursion IsNear olds.now }
    ensures pieces { IfOk result (λ p. p.0.items ≡ left_pieces names 2048 olds.now infos.now) }
    ensures room { IfOk result (λ p. AllByRecursion HasRoom p.0.items) }
    ensures end { IfOk result (λ p. p.1 ≡ end_from 2048 p.0.items) }
    ensures short { IfOk result (λ p. p.1 ≤ 2 ^ 62) }
{
    let mut pieces = Vec::new(alloc);
    let mut at = 2048;
    let mut rest = infos;
    for old in olds {
        at = put_piece(&mut pieces, at, next_piece(at, names, old, rest))?;
        rest = behind(old, rest);
    }
    Ok((pieces, at))
}

fn new_place(message: &NewMessage) -> MbxPlace
    ensures is { result ≡ new_place message.now }
    ensures near { IsNear result }
{
    MbxPlace {
        at: 0,
        head: 0,
        size: message.text.as_slice().len() as u64,
        words: 0,
        bits: 0,
    }
}

// New messages behind them.
fn added_pieces(
    alloc: Global,
    start: u64,
    names: usize,
    infos: &[Info],
    new: &[NewMessage],
) -> Result<(Vec<Piece>, u64), AllocError>
    requires few { names ≤ 30 }
    requires short { start ≤ 2 ^ 62 }
    requires count { length infos.now ≡ length new.now }
    ensures pieces { IfOk result (λ p. p.0.items ≡ added_pieces names start infos.now new.now) }
    ensures room { IfOk result (λ p. AllByRecursion HasRoom p.0.items) }
    ensures end { IfOk result (λ p. p.1 ≡ end_from start p.0.items) }
{
    let mut pieces = Vec::new(alloc);
    let mut at = start;
    for (place, message) in new.iter().enumerate() {
        let piece = message_piece(at, names, &new_place(message), &infos[place]);
        at = put_piece(&mut pieces, at, Some(piece))?;
    }
    Ok((pieces, at))
}

// The messages over the records that are left.
fn plan_over(
    alloc: Global,
    names: usize,
    olds: &[MbxPlace],
    infos: &[Info],
    new: &[NewMessage],
) -> Result<Plan, AllocError>
    requires few { names ≤ 30 }
    requires near { AllByRecursion IsNear olds.now }
    requires count { length new.now ≤ length infos.now }
    ensures { IfOk result (λ plan. IsPlan names olds.now infos.now new.now plan) }
{
    let count = infos.len() - new.len();
    let (left, at) = left_pieces(alloc, names, olds, &infos[..count])?;
    let (added, long) = added_pieces(alloc, at, names, &infos[count..], new)?;
    Ok(Plan { left, added, long })
}

// Whether the first of rising places is this one.
fn is_dropped(number: usize, rest: &[usize]) -> bool
    ensures { result ≡ is_dropped number rest.now }
{
    match rest.first() {
        Some(place) => number == *place,
        None => false,
    }
}

// Whether a record stays, where the next message has this number.
fn is_kept(old: &MbxPlace, number: usize, rest: &[usize]) -> bool
    ensures { result ≡ is_kept old.now number rest.now }
{
    is_marked(old.bits) || !is_dropped(number, rest)
}

// The places that are left to be dropped behind a record.
fn places_behind<'a>(old: &MbxPlace, number: usize, rest: &'a [usize]) -> &'a [usize]
    ensures { result.now ≡ (if is_kept old.now number rest.now then rest.now else drop 1 rest.now) }
{
    if is_kept(old, number, rest) || rest.is_empty() {
        rest
    } else {
        &rest[1..]
    }
}

// The number of the next message behind a record.
fn number_behind(old: &MbxPlace, number: usize) -> usize
    requires { number < 2 ^ 63 }
    ensures { result ≡ (if has_bit 32768 old.now.bits then number else number + 1) }
{
    if is_marked(old.bits) {
        number
    } else {
        number + 1
    }
}

// Appends a place that is kept.
fn put_kept(left: &mut Vec<MbxPlace>, old: &MbxPlace, kept: bool) -> Result<(), AllocError>
    ensures { OnOk result (left.new.items ≡ left.old.items ++ (if kept then old.now ∷ [] else [])) }
{
    if kept {
        left.push(*old)?;
    }
    Ok(())
}

// The places without the messages at places that rise.
fn undropped(
    alloc: Global,
    olds: &[MbxPlace],
    places: &[usize],
    _count: usize,
) -> Result<Vec<MbxPlace>, AllocError>
    requires { RiseBelow 0 _count places.now }
    ensures { IfOk result (λ v. v.items ≡ undropped_places 0 places.now olds.now) }
{
    let mut left = Vec::new(alloc);
    let mut rest = places;
    let mut number = 0;
    for old in olds {
        put_kept(&mut left, old, is_kept(old, number, rest))?;
        rest = places_behind(old, number, rest);
        number = number_behind(old, number);
    }
    Ok(left)
}

// The places without the records that are no messages.
fn unmarked(alloc: Global, olds: &[MbxPlace]) -> Result<Vec<MbxPlace>, AllocError>
    ensures { IfOk result (λ v. v.items ≡ unmarked_places olds.now) }
{
    let mut left = Vec::new(alloc);
    for old in olds {
        put_kept(&mut left, old, !is_marked(old.bits))?;
    }
    Ok(left)
}

// The places of the records that a step leaves.
fn left_places(
    alloc: Global,
    olds: &[MbxPlace],
    step: Step<'_>,
    told: &Told,
) -> Result<Vec<MbxPlace>, AllocError>
    requires can { CanChange (keeps_of Mbx) told.now.words (length told.now.infos) (change_of step) }
    ensures { IfOk result (λ v. v.items ≡ left_places (change_of step.entry) olds.now) }
{
    match step {
        Step::Append(_, _) => Vec::from_slice(alloc, olds),
        Step::SetFlags(_, _) => Vec::from_slice(alloc, olds),
        Step::Expunge(places) => undropped(alloc, olds, places, told.infos().len()),
    }
}

/// The messages that a step adds.
pub(crate) fn added_by(step: Step<'_>) -> &[NewMessage]
    ensures { result.now ≡ added_by (change_of step.entry) }
{
    match step {
        Step::Append(new, _) => new,
        Step::SetFlags(_, _) => &[],
        Step::Expunge(_) => &[],
    }
}

fn is_append(step: Step<'_>) -> bool
    ensures { result ≡ is_append (change_of step.entry) }
{
    match step {
        Step::Append(_, _) => true,
        Step::SetFlags(_, _) => false,
        Step::Expunge(_) => false,
    }
}

/// What a step makes of a file. An append drops the records that are no messages where the file would else be too long.
pub(crate) fn plan_step(
    alloc: Global,
    olds: &[MbxPlace],
    step: Step<'_>,
    names: usize,
    told: &Told,
    next: &Told,
) -> Result<Plan, AllocError>
    requires few { names ≤ 30 }
    requires near { AllByRecursion IsNear olds.now }
    requires can { CanChange (keeps_of Mbx) told.now.words (length told.now.infos) (change_of step) }
    requires count { length (added_by (change_of step)) ≤ length next.now.infos }
    ensures { IfOk result (λ plan. IsPlan names (chosen_places names (change_of step.entry) (left_places (change_of step.entry) olds.now) next.now.infos) next.now.infos (added_by (change_of step.entry)) plan) }
{
    let left = left_places(alloc, olds, step, told)?;
    let whole = plan_over(alloc, names, left.as_slice(), next.infos(), added_by(step))?;
    if is_append(step) && whole.long > FILE_LIMIT {
        let left = unmarked(alloc, left.as_slice())?;
        return plan_over(alloc, names, left.as_slice(), next.infos(), added_by(step));
    }
    Ok(whole)
}
