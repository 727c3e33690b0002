//! Whether some bytes stand in a text, with the case of ASCII letters disregarded.
//!
//! A window of the text at a time is put into lower case and searched by `memchr`'s `Finder`, first for the
//! rarest pair of the needle's bytes. A search for a long needle is linear.
#![tactic(auto)]

mod needle;
mod pair;

pub use needle::contains;
