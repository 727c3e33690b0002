// A stream that comes in pieces.
ghost use Rattle.std.specs.Prelude.{◌≡◌, ◌↔◌, ◌-◌, IfOk, flat_map, List, ℕ, [], ◌∷◌, ◌++◌, OnOk, OnErr, IsErr, IsTrue, true, length, take};
ghost use Rattle.command_lines.specs.Stream.{units_of, unfinished};
ghost use Rattle.command_lines.specs.Taken.{HasTaken, Adds, AddsFirst, IsSpent};

use crate::Line;
use memchr::memchr;
use std::alloc::{AllocError, Global};

// Of an unfinished line one byte more is kept than of a unit, since its last byte may be the CR of its end.
const KEPT: usize = 65_537;

/// What is left of a stream behind its last whole unit.
///
/// Of a line that isn't ended yet the first 65,537 bytes are kept. The others are only searched for its end, so a longer
/// line takes no more memory.
#[derive(Drop)]
pub struct Feed {
    kept: Vec<u8>,
    after_cr: bool,
    spent: bool,
    alloc: Global,
}

impl Feed {
    pub fn new(alloc: Global) -> Feed
        ensures { HasTaken result [] }
    {
        Feed {
            kept: Vec::new(alloc),
            after_cr: false,
            spent: false,
            alloc,
        }
    }

    /// Takes the next piece of the stream, and adds each unit that is whole now.
    ///
    /// An error is want of memory. Some of the piece may be lost then, so the feed is spent and answers errors alone.
    pub fn take(&mut self, piece: &[u8], units: &mut Vec<Line>) -> Result<(), AllocError>
        ensures taken { (stream : List ℕ) → HasTaken self.old stream
            → OnOk result (HasTaken self.new (stream ++ piece.now) × Adds stream piece.now units.old.items units.new.items) }

        // Whatever is answered, the units of the stream come first in those of the longer one.
        ensures first { (stream : List ℕ) → (more : List (List ℕ)) × (units_of (stream ++ piece.now) ≡ units_of stream ++ more) }

        // On an error the first of the piece's units were added, or none, and a spent feed stays so.
        ensures prefix { (stream : List ℕ) → HasTaken self.old stream
            → OnErr result (AddsFirst stream piece.now units.old.items units.new.items) }
        ensures spent { OnErr result (IsSpent self.new) }
        ensures stays_spent { IsSpent self.old → IsErr result × IsSpent self.new }
        ensures unchanged { IsSpent self.old → units.new.items ≡ units.old.items }
    {
        if self.spent {
            return Err(AllocError);
        }
        let taken = self.take_lines(piece, units);
        self.spent = taken.is_err();
        taken
    }

    /// Whether the stream ends between two units.
    pub fn at_rest(&self) -> bool
        ensures { (stream : List ℕ) → HasTaken self.now stream → IsTrue result ↔ (unfinished stream ≡ []) }
    {
        self.kept.is_empty()
    }

    fn take_lines(&mut self, piece: &[u8], units: &mut Vec<Line>) -> Result<(), AllocError>
        ensures taken { (stream : List ℕ) → HasTaken self.old stream
            → OnOk result (HasTaken self.new (stream ++ piece.now) × Adds stream piece.now units.old.items units.new.items) }
        ensures prefix { (stream : List ℕ) → HasTaken self.old stream
            → OnErr result (AddsFirst stream piece.now units.old.items units.new.items) }
    {
        let mut rest = piece;
        while let Some(end) = memchr(b'\n', rest) {
            self.take_run(&rest[..end])?;
            self.take_line_feed(units)?;
            rest = &rest[end + 1..];
        }
        self.take_run(rest)
    }

    // Takes bytes that end no line.
    fn take_run(&mut self, run: &[u8]) -> Result<(), AllocError>
        ensures { (stream : List ℕ) → HasTaken self.old stream → unfinished (stream ++ run.now) ≡ unfinished stream ++ run.now
            → OnOk result (HasTaken self.new (stream ++ run.now)) }
    {
        let Some(last) = run.last() else {
            return Ok(());
        };
        self.after_cr = *last == b'\r';
        self.keep(run)
    }

    // Adds to the line at hand what is kept of it.
    fn keep(&mut self, run: &[u8]) -> Result<(), AllocError>
        ensures kept { OnOk result (self.new.kept.items ≡ self.old.kept.items ++ take (65537 - length self.old.kept.items) run.now) }
        ensures after_cr { self.new.after_cr ≡ self.old.after_cr }
        ensures spent { self.new.spent ≡ self.old.spent }
    {
        let room = KEPT.saturating_sub(self.kept.len());
        let fitting = room.min(run.len());
        self.kept.extend_from_slice(&run[..fitting])
    }

    // A line feed ends the line if a CR stands before it, maybe in an earlier piece, and else is a byte of the line.
    fn take_line_feed(&mut self, units: &mut Vec<Line>) -> Result<(), AllocError>
        ensures taken { (stream : List ℕ) → HasTaken self.old stream
            → OnOk result (HasTaken self.new (stream ++ 10 ∷ []) × Adds stream (10 ∷ []) units.old.items units.new.items) }
        ensures unchanged { OnErr result (units.new.items ≡ units.old.items) }
    {
        if self.after_cr {
            return self.end_line(units);
        }
        self.take_run(b"\n")
    }

    fn end_line(&mut self, units: &mut Vec<Line>) -> Result<(), AllocError>
        ensures taken { (stream : List ℕ) → HasTaken self.old stream → self.old.after_cr ≡ true
            → OnOk result (HasTaken self.new (stream ++ 10 ∷ []) × Adds stream (10 ∷ []) units.old.items units.new.items) }
        ensures unchanged { OnErr result (units.new.items ≡ units.old.items) }
    {
        let mut line = std::mem::replace(&mut self.kept, Vec::new(self.alloc));
        line.pop();
        self.after_cr = false;
        units.push(Line::of(line))?;
        Ok(())
    }
}

/// The units of a stream that comes in these pieces: those of the joined bytes, however it was cut.
pub fn units_of_pieces(alloc: Global, pieces: &[Vec<u8>]) -> Result<Vec<Line>, AllocError>
    ensures { IfOk result (λ units. units.items ≡ units_of (flat_map (λ piece. piece.items) pieces.now)) }
{
    let mut feed = Feed::new(alloc);
    let mut units = Vec::new(alloc);
    for piece in pieces {
        feed.take(piece, &mut units)?;
    }
    Ok(units)
}
