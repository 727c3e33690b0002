// A stream that comes in pieces.
ghost use Rattle.std.specs.Prelude.{◌≡◌, ◌↔◌, ◌-◌, ◌+◌, ◌<◌, ◌≤◌, ◌^◌, IfOk, flat_map, List, ℕ, [], ◌∷◌, ◌++◌, OnOk, OnErr, IsErr, IsTrue, true, false, length, take, drop};
ghost use Rattle.raw_commands.specs.Limits.{Part, literals_size};
ghost use Rattle.raw_commands.specs.Steps.{awaiting, line_ended, push, ends_in_cr};
ghost use Rattle.raw_commands.specs.Streams.{raw_units_of, unfinished, in_line};
ghost use Rattle.raw_commands.specs.Taken.{InLine, AtEnd, InLiteral, Holds, Goes, GoesFirst, HasTaken, Adds, AddsFirst, UnitsFirst, IsSpent};

use crate::command::{RawCommand, RawUnit};
use crate::line::{Ending, MOST_LINES, ending_at};
use mail_fields::{ByteStrings, Bytes};
use memchr::memchr;
use std::alloc::{AllocError, Global};

// Of a line that isn't ended two bytes more are kept than a command can have: the CR of its end, and one that shows that it is too long.
const KEPT: usize = MOST_LINES + 2;

/// The command that is begun behind a stream's last whole command.
///
/// It holds 65,536 bytes of lines and 16 MiB of literals. A longer line is only searched for its end, and the room of a
/// literal is reserved where it is announced.
#[derive(Drop)]
pub struct Feed {
    // The earlier lines with their CRLF, and behind `start` what is kept of the line at hand.
    text: Vec<u8>,
    start: usize,
    literals: Vec<Bytes>,
    lines_size: usize,
    literals_size: usize,
    // The literal at hand, and how many bytes of it are still to come.
    literal: Vec<u8>,
    awaited: usize,
    after_cr: bool,
    spent: bool,
    alloc: Global,
}

impl Feed {
    #[tactic(auto, unfolding(crate::specs::Streams::reading))]
    pub fn new(alloc: Global) -> Feed
        ensures { HasTaken result [] }
    {
        Feed {
            text: Vec::new(alloc),
            start: 0,
            literals: Vec::new(alloc),
            lines_size: 0,
            literals_size: 0,
            literal: Vec::new(alloc),
            awaited: 0,
            after_cr: false,
            spent: false,
            alloc,
        }
    }

    /// Takes the next piece of the stream, and adds each unit that it brings.
    ///
    /// An error is want of memory. Some of the piece may be lost then, so the feed is spent and answers errors alone.
    pub fn take(&mut self, piece: &[u8], units: &mut Vec<RawUnit>) -> Result<(), AllocError>
        ensures taken { (stream : List ℕ) → HasTaken self.old stream
            → OnOk result (HasTaken self.new (stream ++ piece.now) × Adds stream piece.now units.old.items units.new.items) }

        // Whatever is answered, the units of the stream come first in those of the longer one.
        ensures first { (stream : List ℕ) → UnitsFirst stream piece.now }

        // On an error the first of the piece's units were added, or none, and a spent feed stays so.
        ensures prefix { (stream : List ℕ) → HasTaken self.old stream
            → OnErr result (AddsFirst stream piece.now units.old.items units.new.items) }
        ensures spent { OnErr result (IsSpent self.new) }
        ensures stays_spent { IsSpent self.old → IsErr result × IsSpent self.new }
        ensures unchanged { IsSpent self.old → units.new.items ≡ units.old.items }
    {
        if self.spent {
            return Err(AllocError);
        }
        let taken = self.take_all(piece, units);
        self.spent = taken.is_err();
        taken
    }

    /// Whether the stream ends between two commands.
    pub fn at_rest(&self) -> bool
        ensures { (stream : List ℕ) → HasTaken self.now stream → IsTrue result ↔ (unfinished stream ≡ []) }
    {
        self.text.is_empty()
    }

    fn take_all(&mut self, piece: &[u8], units: &mut Vec<RawUnit>) -> Result<(), AllocError>
        ensures taken { OnOk result (Goes self.old self.new piece.now units.old.items units.new.items) }
        ensures prefix { OnErr result (GoesFirst self.old piece.now units.old.items units.new.items) }
    {
        let mut rest = piece;
        while !rest.is_empty() {
            let width = self.take_front(rest, units)?;
            rest = &rest[width..];
        }
        Ok(())
    }

    // Takes the first bytes, up to the end of a line or of a literal.
    fn take_front(&mut self, bytes: &[u8], units: &mut Vec<RawUnit>) -> Result<usize, AllocError>
        requires { 0 < length bytes.now }
        ensures width { IfOk result (λ width. (0 < width) × (width ≤ length bytes.now)) }
        ensures taken { IfOk result (λ width. Goes self.old self.new (take width bytes.now) units.old.items units.new.items) }
        ensures unchanged { OnErr result (units.new.items ≡ units.old.items) }
    {
        if self.awaited > 0 {
            self.take_literal(bytes)
        } else {
            self.take_line(bytes, units)
        }
    }

    // Takes bytes of the literal at hand.
    fn take_literal(&mut self, bytes: &[u8]) -> Result<usize, AllocError>
        requires some { 0 < length bytes.now }
        requires goes_on { 0 < self.old.awaited }
        ensures width { IfOk result (λ width. (0 < width) × (width ≤ length bytes.now)) }
        ensures taken { IfOk result (λ width. Goes self.old self.new (take width bytes.now) [] []) }
    {
        let width = self.awaited.min(bytes.len());
        self.literal.extend_from_slice(&bytes[..width])?;
        self.awaited -= width;
        if self.awaited == 0 {
            self.end_literal()?;
        }
        Ok(width)
    }

    // The literal at hand is whole.
    fn end_literal(&mut self) -> Result<(), AllocError>
        ensures { (parts : List Part) (line : List ℕ) (size : ℕ) (bytes : List ℕ) → InLiteral self.old parts line size bytes → self.old.awaited ≡ 0
            → OnOk result (InLine self.new (parts ++ (line, bytes) ∷ []) []) }
    {
        let literal = std::mem::replace(&mut self.literal, Vec::new(self.alloc));
        self.literals.push(Bytes::from_vec(literal))?;
        Ok(())
    }

    // Takes bytes up to the end of the line at hand, if it ends there.
    fn take_line(&mut self, bytes: &[u8], units: &mut Vec<RawUnit>) -> Result<usize, AllocError>
        requires some { 0 < length bytes.now }
        requires in_line { self.old.awaited ≡ 0 }
        ensures width { IfOk result (λ width. (0 < width) × (width ≤ length bytes.now)) }
        ensures taken { IfOk result (λ width. Goes self.old self.new (take width bytes.now) units.old.items units.new.items) }
        ensures unchanged { OnErr result (units.new.items ≡ units.old.items) }
    {
        let Some(end) = memchr(b'\n', bytes) else {
            self.take_run(bytes)?;
            return Ok(bytes.len());
        };
        self.take_run(&bytes[..end])?;
        self.take_line_feed(units)?;
        Ok(end + 1)
    }

    // Takes bytes that end no line.
    fn take_run(&mut self, run: &[u8]) -> Result<(), AllocError>
        ensures { (parts : List Part) (line : List ℕ) → InLine self.old parts line → OnOk result (InLine self.new parts (line ++ run.now)) }
    {
        let Some(last) = run.last() else {
            return Ok(());
        };
        self.after_cr = *last == b'\r';
        let room = KEPT
            .saturating_sub(self.lines_size)
            .saturating_sub(self.line().len());
        self.text.extend_from_slice(&run[..room.min(run.len())])
    }

    // What is kept of the line at hand.
    fn line(&self) -> &[u8]
        ensures { result.now ≡ drop self.now.start self.now.text.items }
    {
        self.text.get(self.start..).unwrap_or(&[])
    }

    // A line feed ends the line if a CR stands before it, maybe in an earlier piece, and else is a byte of the line.
    fn take_line_feed(&mut self, units: &mut Vec<RawUnit>) -> Result<(), AllocError>
        ensures taken { (parts : List Part) (line : List ℕ) → InLine self.old parts line
            → OnOk result (Holds self.new (push (in_line parts line) 10).left × (units.new.items ≡ units.old.items ++ (push (in_line parts line) 10).units)) }
        ensures unchanged { OnErr result (units.new.items ≡ units.old.items) }
    {
        if self.after_cr {
            return self.end_line(units);
        }
        self.take_run(b"\n")
    }

    fn end_line(&mut self, units: &mut Vec<RawUnit>) -> Result<(), AllocError>
        ensures taken { (parts : List Part) (line : List ℕ) → InLine self.old parts line → ends_in_cr line ≡ true
            → OnOk result (Holds self.new (line_ended parts line).left × (units.new.items ≡ units.old.items ++ (line_ended parts line).units)) }
        ensures unchanged { OnErr result (units.new.items ≡ units.old.items) }
    {
        self.after_cr = false;
        self.text.pop();
        match ending_at(self.lines_size, self.literals_size, self.line()) {
            Ending::TooLong => self.end_too_long(units),
            Ending::TooLarge => self.end_too_large(units),
            Ending::Whole => self.end_command(units),
            Ending::Literal(size) => self.begin_literal(size, units),
        }
    }

    // The command that is begun is over: its text and its literals.
    fn restart(&mut self) -> (Vec<u8>, Vec<Bytes>)
        ensures text { result.0.items ≡ self.old.text.items }
        ensures literals { result.1.items ≡ self.old.literals.items }
        ensures fresh { self.old.spent ≡ false → InLine self.new [] [] }
    {
        self.start = 0;
        self.lines_size = 0;
        self.literals_size = 0;
        self.awaited = 0;
        self.after_cr = false;
        let text = std::mem::replace(&mut self.text, Vec::new(self.alloc));
        let literals = std::mem::replace(&mut self.literals, Vec::new(self.alloc));
        (text, literals)
    }

    fn end_too_long(&mut self, units: &mut Vec<RawUnit>) -> Result<(), AllocError>
        ensures fresh { self.old.spent ≡ false → OnOk result (InLine self.new [] []) }
        ensures unit { OnOk result (units.new.items ≡ units.old.items ++ RawUnit.TooLong (take 65536 self.old.text.items) ∷ []) }
        ensures unchanged { OnErr result (units.new.items ≡ units.old.items) }
    {
        let (mut text, _literals) = self.restart();
        text.truncate(MOST_LINES);
        units.push(RawUnit::TooLong(Bytes::from_vec(text)))?;
        Ok(())
    }

    fn end_too_large(&mut self, units: &mut Vec<RawUnit>) -> Result<(), AllocError>
        ensures fresh { self.old.spent ≡ false → OnOk result (InLine self.new [] []) }
        ensures unit { OnOk result (units.new.items ≡ units.old.items ++ RawUnit.TooLarge self.old.text.items ∷ []) }
        ensures unchanged { OnErr result (units.new.items ≡ units.old.items) }
    {
        let (text, _literals) = self.restart();
        units.push(RawUnit::TooLarge(Bytes::from_vec(text)))?;
        Ok(())
    }

    fn end_command(&mut self, units: &mut Vec<RawUnit>) -> Result<(), AllocError>
        ensures fresh { self.old.spent ≡ false → OnOk result (InLine self.new [] []) }
        ensures unit { OnOk result (units.new.items ≡ units.old.items ++ RawUnit.Whole (record { text = self.old.text.items; literals = self.old.literals.items }) ∷ []) }
        ensures unchanged { OnErr result (units.new.items ≡ units.old.items) }
    {
        let (text, literals) = self.restart();
        units.push(RawUnit::Whole(RawCommand {
            text: Bytes::from_vec(text),
            literals: ByteStrings::of(literals),
        }))?;
        Ok(())
    }

    // A literal of so many bytes follows the line at hand.
    fn begin_literal(&mut self, size: usize, units: &mut Vec<RawUnit>) -> Result<(), AllocError>
        ensures taken { (parts : List Part) (line : List ℕ) → AtEnd self.old parts line → literals_size parts + size ≤ 16777216
            → OnOk result (Holds self.new (awaiting parts line size)) }
        ensures unit { OnOk result (units.new.items ≡ units.old.items ++ RawUnit.Announce ∷ []) }
        ensures unchanged { OnErr result (units.new.items ≡ units.old.items) }
    {
        self.reserve_literal(size)?;
        if size == 0 {
            self.end_literal()?;
        }
        units.push(RawUnit::Announce)?;
        Ok(())
    }

    // Makes room for the literal, so that it is announced only where it can be held.
    fn reserve_literal(&mut self, size: usize) -> Result<(), AllocError>
        ensures taken { (parts : List Part) (line : List ℕ) → AtEnd self.old parts line → literals_size parts + size ≤ 16777216
            → OnOk result (InLiteral self.new parts line size []) }
        ensures awaited { OnOk result (self.new.awaited ≡ size) }
    {
        self.lines_size = self.lines_size.saturating_add(self.line().len());
        self.literals_size = self.literals_size.saturating_add(size);
        self.text.extend_from_slice(b"\r\n")?;
        self.start = self.text.len();
        self.literal = Vec::with_capacity(self.alloc, size)?;
        self.awaited = size;
        Ok(())
    }
}

/// The units of a stream that comes in these pieces: those of the joined bytes, however it was cut.
pub fn units_of_pieces(alloc: Global, pieces: &[Vec<u8>]) -> Result<Vec<RawUnit>, AllocError>
    ensures { IfOk result (λ units. units.items ≡ raw_units_of (flat_map (λ piece. piece.items) pieces.now)) }
{
    let mut feed = Feed::new(alloc);
    let mut units = Vec::new(alloc);
    for piece in pieces {
        feed.take(piece, &mut units)?;
    }
    Ok(units)
}
