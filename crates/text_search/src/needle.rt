// A needle in a text.
ghost use Rattle.std.specs.Prelude.{◌≡◌, true, IfOk};
ghost use Rattle.text_search.specs.Needles.{is_inside, stands_in, lowered};

use crate::pair::rarest_pair;
use memchr::memmem::Finder;
use std::alloc::{AllocError, Global};

// How many places of a text are searched at once, at least.
const PLACES: usize = 32768;

/// Whether a needle stands in a text, with the case of ASCII letters disregarded.
///
/// The work is in proportion to the text, whatever the needle is. It takes memory for the needle and
/// for a window of the text, which has 32,768 bytes and the needle's length, or twice the needle's length.
#[tactic(auto, using(crate::proofs::Needles::inside_front, crate::proofs::Needles::inside_behind))]
pub fn contains(alloc: Global, text: &[u8], needle: &[u8]) -> Result<bool, AllocError>
    ensures { IfOk result (λ has. has ≡ is_inside needle.now text.now) }
{
    let needle = needle.to_ascii_lowercase(alloc)?;
    let whole = Finder::new(needle.as_slice());
    let part = Finder::new(rarest_pair(needle.as_slice()));
    let places = PLACES.max(needle.len());
    let width = places + needle.len();
    let mut rest = text;
    // a window has the bytes of all needles that begin at its places
    while rest.len() > width {
        if window_has(alloc, &rest[..width], &whole, &part)? {
            return Ok(true);
        }
        rest = &rest[places..];
    }
    window_has(alloc, rest, &whole, &part)
}

// Whether a needle in lower case stands in a window. It doesn't where a part of it doesn't: so the search isn't
// slow in a text that has almost all of the needle everywhere.
fn window_has(
    alloc: Global,
    window: &[u8],
    whole: &Finder<'_>,
    part: &Finder<'_>,
) -> Result<bool, AllocError>
    requires { stands_in part.now whole.now ≡ true }
    ensures { IfOk result (λ has. has ≡ stands_in whole.now (lowered window.now)) }
{
    let window = window.to_ascii_lowercase(alloc)?;
    if part.find(window.as_slice()).is_none() {
        return Ok(false);
    }
    Ok(whole.find(window.as_slice()).is_some())
}
