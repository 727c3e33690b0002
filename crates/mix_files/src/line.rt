// Lines of the metadata.
ghost use Rattle.std.specs.Prelude.{◌≡◌, ◌<◌, ◌≤◌, ◌+◌, ◌∷◌, [], Some, None, MatchOption, IfSome, length, take, drop};
ghost use Rattle.mix_files.specs.CrlfLines.{first_line_len};
ghost use Rattle.mix_files.specs.Metadata.{line_parts, is_known, is_further, kept_lines};

use memchr::memchr;

// The length of the first line with its CRLF, or of the whole text where it has none.
fn line_length(text: &[u8]) -> usize
    ensures value { result ≡ first_line_len text.now }
    ensures within { result ≤ length text.now }
    ensures some { 0 < length text.now → 0 < result }
{
    let mut from = 0;
    while let Some(feed) = memchr(b'\n', &text[from..]) {
        let end = from + feed;
        if feed > 0 && text[end - 1] == b'\r' {
            return end + 1;
        }
        from = end + 1;
    }
    text.len()
}

// The first byte of a line that CRLF ends, and what stands between.
#[tactic(auto, unfolding(crate::specs::Metadata::line_parts))]
pub(crate) fn line_parts(line: &[u8]) -> Option<(u8, &[u8])>
    ensures { MatchOption result (line_parts line.now ≡ None) (λ parts. line_parts line.now ≡ Some (parts.0, parts.1.now)) }
{
    match line {
        [first, between @ .., b'\r', b'\n'] => Some((*first, between)),
        _ => None,
    }
}

// Whether a letter begins a line with a meaning.
fn is_known(letter: u8) -> bool
    ensures { result ≡ is_known letter }
{
    matches!(letter, b'S' | b'V' | b'L' | b'N' | b'K')
}

// Whether a line is a further one, which means nothing.
fn is_further(line: &[u8]) -> bool
    ensures { result ≡ is_further line.now }
{
    match line_parts(line) {
        Some((first, _)) => first.is_ascii_alphabetic() && !is_known(first),
        None => false,
    }
}

// The first line that is no further one, and what stands behind it.
pub(crate) fn next_line(text: &[u8]) -> Option<(&[u8], &[u8])>
    ensures { MatchOption result (kept_lines text.now ≡ [])
        (λ found. kept_lines text.now ≡ found.0.now ∷ kept_lines found.1.now) }
{
    let mut rest = text;
    while !rest.is_empty() {
        let (line, behind) = rest.split_at(line_length(rest));
        if !is_further(line) {
            return Some((line, behind));
        }
        rest = behind;
    }
    None
}
