// One line at the front of a text, and its end.
ghost use Rattle.std.specs.Prelude.{◌≡◌, ◌<◌, ◌≤◌, ◌∷◌, length, take, drop};
ghost use Rattle.text_lines.specs.Lines.{lines_of, line_text, is_empty_line};

use memchr::memchr;

/// The length of the first line of a text, with its line feed; of the whole text where it has none.
pub fn line_length(text: &[u8]) -> usize
    ensures within { result ≤ length text.now }
    ensures some { 0 < length text.now → 0 < result }
    ensures lines { 0 < length text.now
        → lines_of text.now ≡ take result text.now ∷ lines_of (drop result text.now) }
{
    match memchr(b'\n', text) {
        Some(at) => at + 1,
        None => text.len(),
    }
}

/// What stands in a line before its line end.
pub fn line_text(line: &[u8]) -> &[u8]
    ensures { result.now ≡ line_text line.now }
{
    let Some(before) = line.strip_suffix(b"\n") else {
        return line;
    };
    let mut end = before.len();
    while end > 0 && before[end - 1] == b'\r' {
        end -= 1;
    }
    &before[..end]
}

/// Whether a line has a line end and nothing before it.
#[tactic(auto, using(crate::proofs::LineEnds::empty_text))]
pub fn is_empty_line(line: &[u8]) -> bool
    ensures { result ≡ is_empty_line line.now }
{
    !line.is_empty() && line_text(line).is_empty()
}
