// A reader of units.
ghost use Rattle.std.specs.Prelude.{◌≡◌, ◌↔◌, ◌++◌, List, ℕ, [], OnOk, IsTrue};
ghost use Rattle.std.specs.List.{All};
ghost use Rattle.unit_reader.specs.Units.{Adds, UnitsFirst};

use std::alloc::{AllocError, Global};

/// Takes a stream in pieces, and adds the same units however it was cut.
pub trait UnitReader: Drop {
    type Unit: Drop;

    /// The units of a whole stream.
    ghost units_of: { List ℕ → List Self.Unit };

    /// The bytes behind the last of them: none exactly between two units.
    ghost unfinished: { List ℕ → List ℕ };

    /// What its grammar promises of each unit.
    ghost is_sound: { Self.Unit → Type 0 };

    /// The reader has taken this stream, no other bytes and no error.
    ghost has_taken: { Self → List ℕ → Type 0 };

    fn begin(alloc: Global) -> Self
    where
        Self: Sized,
        ensures taken { has_taken result [] }

        // The units of a stream come first in those of a longer one.
        ensures grows { (stream piece : List ℕ) → UnitsFirst units_of stream piece };

    /// Takes the next piece of the stream, and adds each unit that it brings. An error is want of memory.
    fn take_piece(&mut self, piece: &[u8], units: &mut Vec<Self::Unit>) -> Result<(), AllocError>
        ensures taken { (stream : List ℕ) → has_taken self.old stream
            → OnOk result (has_taken self.new (stream ++ piece.now) × Adds units_of stream piece.now units.old.items units.new.items) }
        ensures grows { (stream : List ℕ) → UnitsFirst units_of stream piece.now }

        // Whatever is answered, sound units alone are added.
        ensures sound { All is_sound units.old.items → All is_sound units.new.items };

    /// Whether the stream ends between two units.
    fn is_between(&self) -> bool
        ensures { (stream : List ℕ) → has_taken self.now stream → IsTrue result ↔ (unfinished stream ≡ []) };

    /// A stream of no bytes has no units.
    ghost none_at_first: { units_of [] ≡ [] };
}
