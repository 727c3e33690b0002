// The lines of a text that begin with `--`, and how many lines stand before each.
//
// They are found in one pass over the text. Then each multipart goes over those of its body alone.
ghost use Rattle.std.specs.Prelude.{◌≡◌, ◌≤◌, ◌<◌, ◌+◌, ◌∷◌, [], length, take, drop, IfOk, MatchOption, nat_lt};
ghost use Rattle.std.specs.List.{prefix_len};
ghost use Rattle.text_lines.specs.Lines.{lines_of};
ghost use Rattle.head_fields.specs.Header.{body_start_of};
ghost use Rattle.mime_parts.specs.Delimiters.{BeginsLines};
ghost use Rattle.mime_parts.specs.Marks.{is_dashed, marks_from, IsTail, HasNoDashed, IsNext};

use crate::delimiter::first_line;
use head_fields::body_start;
use std::alloc::{AllocError, Global};

/// A line that begins with `--`, by its offset and by how many lines stand before it.
#[derive(Clone, Copy)]
pub(crate) struct Mark {
    pub(crate) at: usize,
    pub(crate) lines: usize,
}

/// The rest of a text from an offset on: how many lines stand before it, how many up to the text's
/// end, and its lines that begin with `--`.
#[derive(Clone, Copy)]
pub(crate) struct Tail<'a> {
    pub(crate) from: usize,
    pub(crate) before: usize,
    pub(crate) until: usize,
    pub(crate) marks: &'a [Mark],
}

/// A line that begins with `--`, and what stands behind it.
#[derive(Clone, Copy)]
pub(crate) struct Next<'a> {
    pub(crate) mark: Mark,
    pub(crate) line: &'a [u8],
    pub(crate) behind: Tail<'a>,
}

/// The marks of a text, and how many lines it has.
#[derive(Drop)]
pub(crate) struct Marks {
    pub(crate) items: Vec<Mark>,
    pub(crate) lines: usize,
}

fn is_dashed(line: &[u8]) -> bool
    ensures { result ≡ is_dashed line.now }
{
    matches!(line, [b'-', b'-', ..])
}

/// The marks of a whole text.
pub(crate) fn find_marks(alloc: Global, text: &[u8]) -> Result<Marks, AllocError>
    ensures marks { IfOk result (λ m. m.items.items ≡ marks_from 0 0 (lines_of text.now)) }
    ensures lines { IfOk result (λ m. m.lines ≡ length (lines_of text.now)) }
{
    let mut items = Vec::new(alloc);
    let mut at = 0;
    let mut lines = 0;
    while at < text.len() {
        let line = first_line(&text[at..]);
        if is_dashed(line) {
            items.push(Mark { at, lines })?;
        }
        at += line.len();
        lines += 1;
    }
    Ok(Marks { items, lines })
}

// The first mark, and those behind it.
fn first_mark(marks: &[Mark]) -> Option<(Mark, &[Mark])>
    ensures { MatchOption result (marks.now ≡ []) (λ found. marks.now ≡ found.0 ∷ found.1.now) }
{
    let (first, behind) = marks.split_first()?;
    Some((*first, behind))
}

fn line_at(text: &[u8], at: usize) -> &[u8]
    requires { at < length text.now }
    ensures { BeginsLines (drop at text.now) result.now }
{
    first_line(&text[at..])
}

/// The next line that begins with `--`.
pub(crate) fn next_dashed<'a>(text: &'a [u8], tail: &Tail<'a>) -> Option<Next<'a>>
    requires { IsTail text.now tail.now }
    ensures { MatchOption result (HasNoDashed text.now tail.now) (λ next. IsNext text.now tail.now next) }
{
    let Some((mark, marks)) = first_mark(tail.marks) else {
        return None;
    };
    let line = line_at(text, mark.at);
    Some(Next {
        mark,
        line,
        behind: Tail {
            from: mark.at + line.len(),
            before: mark.lines + 1,
            until: tail.until,
            marks,
        },
    })
}

// How many marks stand before an offset.
fn marks_before(marks: &[Mark], at: usize) -> usize
    ensures value { result ≡ prefix_len (λ mark. nat_lt mark.at at) marks.now }
    ensures within { result ≤ length marks.now }
{
    let mut count = 0;
    while count < marks.len() && marks[count].at < at {
        count += 1;
    }
    count
}

// The marks from an offset on.
fn marks_behind(marks: &[Mark], at: usize) -> &[Mark]
    ensures { result.now ≡ drop (prefix_len (λ mark. nat_lt mark.at at) marks.now) marks.now }
{
    &marks[marks_before(marks, at)..]
}

/// So many marks in front.
pub(crate) fn first_marks(marks: &[Mark], count: usize) -> &[Mark]
    requires { count ≤ length marks.now }
    ensures { result.now ≡ take count marks.now }
{
    &marks[..count]
}

fn count_lines(text: &[u8]) -> usize
    ensures value { result ≡ length (lines_of text.now) }
    ensures few { result ≤ length text.now }
{
    let mut at = 0;
    let mut lines = 0;
    while at < text.len() {
        at += first_line(&text[at..]).len();
        lines += 1;
    }
    lines
}

// How long the header is of the part that a text is from an offset on.
fn header_width(text: &[u8], from: usize) -> usize
    requires { from ≤ length text.now }
    ensures { result ≡ body_start_of (drop from text.now) }
{
    body_start(&text[from..])
}

// How many lines stand in so many bytes from an offset on.
fn lines_within(text: &[u8], from: usize, width: usize) -> usize
    requires { from + width ≤ length text.now }
    ensures { result ≡ length (lines_of (take width (drop from text.now))) }
{
    count_lines(&text[from..from + width])
}

/// The body of the part that the rest of a text is.
pub(crate) fn body_tail<'a>(text: &[u8], tail: &Tail<'a>) -> Tail<'a>
    requires { IsTail text.now tail.now }
    ensures tail { IsTail text.now result }
    ensures from { result.from ≡ tail.now.from + body_start_of (drop tail.now.from text.now) }
{
    let width = header_width(text, tail.from);
    let from = tail.from + width;
    Tail {
        from,
        before: tail.before + lines_within(text, tail.from, width),
        until: tail.until,
        marks: marks_behind(tail.marks, from),
    }
}
