// A stream that comes in pieces.
ghost use Rattle.std.specs.Prelude.{◌≡◌, ◌↔◌, IfOk, flat_map, List, ℕ, [], ◌++◌, OnOk, OnErr, IsErr, IsTrue, map};
ghost use Rattle.std.specs.List.{All};
ghost use Rattle.raw_commands.specs.Streams.{unfinished};
ghost use Rattle.imap_grammar.specs.Units.{unit_of, units_of};
ghost use Rattle.imap_grammar.specs.Sound.{IsSound};
ghost use Rattle.imap_grammar.specs.Taken.{HasTaken, Adds, AddsFirst, AddsSome, UnitsFirst, IsSpent};

use crate::meaning::unit_of;
use crate::unit::Unit;
use raw_commands::RawUnit;
use std::alloc::{AllocError, Global};

/// The command that is begun behind a stream's last whole command.
///
/// It holds 65,536 bytes of lines and 16 MiB of literals at most, whatever comes.
#[derive(Drop)]
pub struct Feed {
    raw: raw_commands::Feed,
    spent: bool,
    alloc: Global,
}

impl Feed {
    pub fn new(alloc: Global) -> Feed
        ensures { HasTaken result [] }
    {
        Feed {
            raw: raw_commands::Feed::new(alloc),
            spent: false,
            alloc,
        }
    }

    /// Takes the next piece of the stream, and adds each unit that it brings.
    ///
    /// An error is want of memory. Some of the piece may be lost then, so the feed is spent and answers errors alone.
    pub fn take(&mut self, piece: &[u8], units: &mut Vec<Unit>) -> Result<(), AllocError>
        ensures taken { (stream : List ℕ) → HasTaken self.old stream
            → OnOk result (HasTaken self.new (stream ++ piece.now) × Adds stream piece.now units.old.items units.new.items) }

        // Whatever is answered, the units of the stream come first in those of the longer one.
        ensures first { (stream : List ℕ) → UnitsFirst stream piece.now }

        // On an error the first of the piece's units were added, or none, and a spent feed stays so.
        ensures prefix { (stream : List ℕ) → HasTaken self.old stream
            → OnErr result (AddsFirst stream piece.now units.old.items units.new.items) }
        ensures spent { OnErr result (IsSpent self.new) }
        ensures stays_spent { IsSpent self.old → IsErr result × IsSpent self.new }
        ensures unchanged { IsSpent self.old → units.new.items ≡ units.old.items }

        // Whatever is answered, each unit that was added is sound.
        ensures sound { All IsSound units.old.items → All IsSound units.new.items }
    {
        if self.spent {
            return Err(AllocError);
        }
        let taken = self.take_all(piece, units);
        self.spent = taken.is_err();
        taken
    }

    /// Whether the stream ends between two commands.
    pub fn at_rest(&self) -> bool
        ensures { (stream : List ℕ) → HasTaken self.now stream → IsTrue result ↔ (unfinished stream ≡ []) }
    {
        self.raw.at_rest()
    }

    // The raw units of one piece are held until it is read, and no longer.
    fn take_all(&mut self, piece: &[u8], units: &mut Vec<Unit>) -> Result<(), AllocError>
        ensures taken { (stream : List ℕ) → HasTaken self.old stream
            → OnOk result (HasTaken self.new (stream ++ piece.now) × Adds stream piece.now units.old.items units.new.items) }
        ensures prefix { (stream : List ℕ) → HasTaken self.old stream
            → OnErr result (AddsFirst stream piece.now units.old.items units.new.items) }
        ensures sound { All IsSound units.old.items → All IsSound units.new.items }
    {
        let mut raw_units = Vec::new(self.alloc);
        self.raw.take(piece, &mut raw_units)?;
        add_units(self.alloc, raw_units, units)
    }
}

// Adds what each raw unit means.
fn add_units(
    alloc: Global,
    raw_units: Vec<RawUnit>,
    units: &mut Vec<Unit>,
) -> Result<(), AllocError>
    ensures added { OnOk result (units.new.items ≡ units.old.items ++ map unit_of raw_units.items) }
    ensures prefix { OnErr result (AddsSome (map unit_of raw_units.items) units.old.items units.new.items) }
    ensures sound { All IsSound units.old.items → All IsSound units.new.items }
{
    for raw in raw_units {
        units.push(unit_of(alloc, raw)?)?;
    }
    Ok(())
}

/// The units of a stream that comes in these pieces: those of the joined bytes, however it was cut.
pub fn units_of_pieces(alloc: Global, pieces: &[Vec<u8>]) -> Result<Vec<Unit>, AllocError>
    ensures { IfOk result (λ units. units.items ≡ units_of (flat_map (λ piece. piece.items) pieces.now)) }
{
    let mut feed = Feed::new(alloc);
    let mut units = Vec::new(alloc);
    for piece in pieces {
        feed.take(piece, &mut units)?;
    }
    Ok(units)
}
