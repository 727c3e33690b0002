//! What a server's loop needs of a grammar: the units of a stream of bytes, and a reader that takes the stream in pieces.
//!
//! `specs/Units.antt` says what a piece adds to the units of a stream. The crate does no input and no output.
#![tactic(auto)]

mod reader;

pub use reader::UnitReader;
