// Sets of message numbers or UIDs.
ghost use Rattle.std.specs.Prelude.{◌≡◌, [], length};
ghost use Rattle.imap_arguments.specs.Readings.{Gives};
ghost use Rattle.imap_arguments.specs.Sets.{end_number, range_has, set_has, end_at, range_at, add_range, ranges_at, set_at};

use crate::number::nonzero_at;
use crate::reason::Refused;
use crate::token::{begins, broken_off};
use std::alloc::Global;
use std::marker::Model;

/// An end of a range.
#[derive(Clone, Copy, Debug, PartialEq, Eq)]
pub enum End {
    Number(u32),
    /// The largest number, written `*`.
    Largest,
}

/// The ranges of a set.
#[derive(Debug, Drop)]
pub struct Ranges {
    items: Vec<(End, End)>,
}

impl Model for Ranges {
    ghost use Rattle.std.specs.Prelude.{List};
    ghost use Rattle.imap_arguments.specs.declared.set.End.{End};

    ghost Value = { List (End × End) };

    ghost view = { λ b. b.items.items };
}

impl Ranges {
    pub fn of(items: Vec<(End, End)>) -> Ranges
        ensures { result ≡ items.items }
    {
        Ranges { items }
    }

    pub fn as_slice(&self) -> &[(End, End)]
        ensures { result.now ≡ self.now }
    {
        self.items.as_slice()
    }

    pub fn into_vec(self) -> Vec<(End, End)>
        ensures { result.items ≡ self }
    {
        let Ranges { items } = self;
        items
    }
}

/// A set: ranges in the order in which they are given (RFC 3501, section 9, sequence-set).
#[derive(Debug, Drop)]
pub struct Set {
    pub ranges: Ranges,
}

// The number that an end stands for.
fn end_number(end: End, largest: u32) -> u32
    ensures { result ≡ end_number largest end }
{
    match end {
        End::Number(number) => number,
        End::Largest => largest,
    }
}

// Whether a range, whichever end is written first, has a number.
fn range_has(range: (End, End), n: u32, largest: u32) -> bool
    ensures { result ≡ range_has largest n range }
{
    let one = end_number(range.0, largest);
    let other = end_number(range.1, largest);
    (one <= n && n <= other) || (other <= n && n <= one)
}

impl Set {
    /// Whether the set has a number, where `*` stands for the largest.
    pub fn has(&self, n: u32, largest: u32) -> bool
        ensures { result ≡ set_has largest n self.now }
    {
        self.ranges
            .as_slice()
            .iter()
            .any(|range| range_has(*range, n, largest))
    }
}

// An end of a range at the front, and what stands behind it.
#[tactic(auto, unfolding(crate::specs::Sets::end_at))]
fn end_at(bytes: &[u8]) -> Result<(End, &[u8]), Refused>
    ensures { Gives (λ x. (x.0, x.1.now)) result (end_at bytes.now) }
{
    if begins(b'*', bytes) {
        return Ok((End::Largest, &bytes[1..]));
    }
    let (number, rest) = nonzero_at(bytes)?;
    Ok((End::Number(number), rest))
}

#[tactic(auto, unfolding(crate::specs::Sets::range_at))]
fn range_at(bytes: &[u8]) -> Result<((End, End), &[u8]), Refused>
    ensures { Gives (λ x. (x.0, x.1.now)) result (range_at bytes.now) }
{
    let (one, rest) = end_at(bytes)?;
    if !begins(b':', rest) {
        return Ok(((one, one), rest));
    }
    let (other, rest) = end_at(&rest[1..])?;
    Ok(((one, other), rest))
}

// A range more behind those that are read.
fn add_range<'a>(ranges: &mut Vec<(End, End)>, bytes: &'a [u8]) -> Result<&'a [u8], Refused>
    ensures { Gives (λ rest. (ranges.new.items, rest.now)) result (add_range ranges.old.items bytes.now) }
{
    let (range, rest) = range_at(bytes)?;
    ranges.push(range)?;
    Ok(rest)
}

// Ranges with commas between them.
fn ranges_at(alloc: Global, bytes: &[u8]) -> Result<(Vec<(End, End)>, &[u8]), Refused>
    ensures { Gives (λ x. (x.0.items, x.1.now)) result (ranges_at bytes.now) }
{
    let mut ranges = Vec::new(alloc);
    let mut rest = bytes;
    for _ in 0..bytes.len() {
        let behind = add_range(&mut ranges, rest)?;
        if !begins(b',', behind) {
            return Ok((ranges, behind));
        }
        rest = &behind[1..];
    }
    Err(Refused::Bad(broken_off(rest)))
}

/// The set at the front, and what stands behind it.
#[tactic(auto, unfolding(crate::specs::Sets::set_at))]
pub fn set_at(alloc: Global, bytes: &[u8]) -> Result<(Set, &[u8]), Refused>
    ensures { Gives (λ x. (x.0, x.1.now)) result (set_at bytes.now) }
{
    let (ranges, rest) = ranges_at(alloc, bytes)?;
    let ranges = Ranges::of(ranges);
    Ok((Set { ranges }, rest))
}
