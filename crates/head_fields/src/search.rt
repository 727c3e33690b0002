// A search for the end of a header, over fronts of a text that grow.
ghost use Rattle.std.specs.Prelude.{◌≡◌, ◌≤◌, ◌<◌, ℕ, List, ◌≢◌, length, get_or, IfSome, IfNone};
ghost use Rattle.head_fields.specs.Searches.{IsSearched, IsFound};

use memchr::memchr;
use text_lines::is_empty_line;

/// A search for the place of a text's body: the line whose end wasn't seen, and how much was looked at.
///
/// It goes over fronts of the text that grow, as they are read, and looks at each byte once, also where
/// the header has no end.
#[derive(Clone, Copy, Debug, PartialEq, Eq)]
pub struct HeaderSearch {
    line: usize,
    seen: usize,
}

/// Where a text's body begins, if a front of it tells that.
#[derive(Clone, Copy, Debug, PartialEq, Eq)]
pub enum FoundBody {
    At(usize),
    /// The search goes on over a longer front.
    Open(HeaderSearch),
}

impl HeaderSearch {
    /// A search that has looked at nothing.
    pub fn begin() -> HeaderSearch
        ensures { (front : List ℕ) → IsSearched front result }
    {
        HeaderSearch { line: 0, seen: 0 }
    }

    /// Goes on over a front that begins with the one before. Each byte is looked at once.
    pub fn find_body(self, front: &[u8]) -> FoundBody
        requires { IsSearched front.now self }
        ensures { IsFound front.now result }
    {
        let HeaderSearch { mut line, mut seen } = self;
        while let Some(at) = line_feed(&front[seen..]) {
            let end = seen + at + 1;
            if is_empty_line(&front[line..end]) {
                return FoundBody::At(end);
            }
            line = end;
            seen = end;
        }
        FoundBody::Open(HeaderSearch {
            line,
            seen: front.len(),
        })
    }
}

// Where the first line feed of a text stands.
fn line_feed(text: &[u8]) -> Option<usize>
    ensures within { IfSome result (λ at. at < length text.now) }
    ensures feed { IfSome result (λ at. get_or text.now at 0 ≡ 10) }
    ensures before { IfSome result (λ at. (k : ℕ) → k < at → get_or text.now k 0 ≢ 10) }
    ensures none { IfNone result ((k : ℕ) → k < length text.now → get_or text.now k 0 ≢ 10) }
{
    memchr(b'\n', text)
}
