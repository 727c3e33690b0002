// What holds of every stream.
ghost use Rattle.std.specs.Prelude.{List, ℕ};
ghost use Rattle.std.specs.List.{AllByRecursion};
ghost use Rattle.raw_commands.specs.Streams.{raw_units_of};
ghost use Rattle.imap_grammar.specs.Units.{units_of};
ghost use Rattle.imap_grammar.specs.Limits.{IsWithin};
ghost use Rattle.imap_grammar.specs.Sound.{IsSound};

/// No command of a stream passes the limits: 65,536 bytes of lines, and 16 MiB of literals.
///
/// A theorem; the call does nothing.
pub fn commands_keep_limits()
    ensures { (stream : List ℕ) → AllByRecursion IsWithin (raw_units_of stream) }
{}

/// Each unit of a stream is sound: its tag can be written in a reply, and a reason has a number from 1 to 9.
///
/// A theorem; the call does nothing.
pub fn units_are_sound()
    ensures { (stream : List ℕ) → AllByRecursion IsSound (units_of stream) }
{}
