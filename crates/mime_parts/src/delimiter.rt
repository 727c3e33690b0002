// The delimiter lines of a multipart, and where its parts stand (RFC 2046, section 5.1.1).
ghost use Rattle.std.specs.Prelude.{◌≡◌, ◌+◌, ◌++◌, ◌<◌, ◌≤◌, ◌&&◌, true, length, drop, map, nat_lt, slice_range, if◌then◌else◌, All, IfOk, OnOk, MatchOption, Some, None};
ghost use Rattle.std.specs.List.{list_all};
ghost use Rattle.text_lines.specs.Lines.{lines_of, line_text};
ghost use Rattle.text_lines.specs.Blanks.{is_blank};
ghost use Rattle.mime_parts.specs.Delimiters.{after_boundary, opens_part, closes_parts, is_delimiter, text_before, lines_before, lines_from_delimiter, parts_of_body, BeginsLines};
ghost use Rattle.mime_parts.specs.Marks.{ends_line, opened_part, section_in, IsTail, IsSection, EndsAt};

use crate::mark::{Mark, Tail, first_marks, next_dashed};
use std::alloc::{AllocError, Global};
use text_lines::{is_blank, line_length, line_text};

fn are_blanks(bytes: &[u8]) -> bool
    ensures { result ≡ list_all is_blank bytes.now }
{
    bytes.iter().all(|byte| is_blank(*byte))
}

// What a line has behind `--boundary`.
fn after_boundary<'a>(boundary: &[u8], line: &'a [u8]) -> Option<&'a [u8]>
    ensures { MatchOption result (after_boundary boundary.now line.now ≡ None)
        (λ rest. after_boundary boundary.now line.now ≡ Some rest.now) }
{
    line_text(line).strip_prefix(b"--")?.strip_prefix(boundary)
}

fn opens_part(boundary: &[u8], line: &[u8]) -> bool
    ensures { result ≡ opens_part boundary.now line.now }
{
    match after_boundary(boundary, line) {
        Some(rest) => are_blanks(rest),
        None => false,
    }
}

fn closes_parts(boundary: &[u8], line: &[u8]) -> bool
    ensures { result ≡ closes_parts boundary.now line.now }
{
    match after_boundary(boundary, line) {
        Some(rest) => rest.starts_with(b"--") && are_blanks(&rest[2..]),
        None => false,
    }
}

fn is_delimiter(boundary: &[u8], line: &[u8]) -> bool
    ensures { result ≡ is_delimiter boundary.now line.now }
{
    opens_part(boundary, line) || closes_parts(boundary, line)
}

/// The first line of a text, with its end.
pub(crate) fn first_line(text: &[u8]) -> &[u8]
    requires { 0 < length text.now }
    ensures { BeginsLines text.now result.now }
{
    &text[..line_length(text)]
}

fn ends_line(bytes: &[u8]) -> bool
    ensures { result ≡ ends_line bytes.now }
{
    bytes.is_empty() || bytes[bytes.len() - 1] == b'\n'
}

// Whether the last line of so many bytes has nothing but its end, by what they are without that.
fn loses_line(width: usize, part: &[u8]) -> bool
    ensures { result ≡ nat_lt 0 width && ends_line part.now }
{
    width > 0 && ends_line(part)
}

fn one_less(lines: usize, short: bool) -> usize
    requires { short ≡ true → 0 < lines }
    ensures { result + (if short then 1 else 0) ≡ lines }
{
    if short { lines - 1 } else { lines }
}

fn between(text: &[u8], from: usize, to: usize) -> &[u8]
    requires ordered { from ≤ to }
    requires within { to ≤ length text.now }
    ensures { result.now ≡ slice_range text.now from to }
{
    &text[from..to]
}

/// A part of a multipart: where it ends, and the rest of the text up to there.
#[derive(Clone, Copy)]
pub(crate) struct Section<'a> {
    pub(crate) to: usize,
    pub(crate) tail: Tail<'a>,
}

// The part up to a delimiter line and the line end in front of that, with so many marks in it.
fn cut<'a>(text: &[u8], tail: &Tail<'a>, mark: Mark, passed: usize) -> Section<'a>
    requires tail { IsTail text.now tail.now }
    requires ends { EndsAt text.now tail.now mark passed }
    ensures part { slice_range text.now result.tail.from result.to ≡ line_text (slice_range text.now tail.now.from mark.at) }
    ensures from { result.tail.from ≡ tail.now.from }
    ensures is { IsSection text.now result }
{
    let whole = between(text, tail.from, mark.at);
    let part = line_text(whole);
    let short = loses_line(whole.len(), part);
    Section {
        to: tail.from + part.len(),
        tail: Tail {
            from: tail.from,
            before: tail.before,
            until: one_less(mark.lines, short),
            marks: first_marks(tail.marks, passed),
        },
    }
}

// The part that begins here, up to the next delimiter line.
fn next_section<'a>(boundary: &[u8], text: &'a [u8], tail: &Tail<'a>) -> Section<'a>
    requires { IsTail text.now tail.now }
    ensures place { section_in text.now result ≡ (tail.now.from, text_before (lines_before boundary.now (lines_of (drop tail.now.from text.now))) (lines_from_delimiter boundary.now (lines_of (drop tail.now.from text.now)))) }
    ensures is { IsSection text.now result }
{
    let mut left = *tail;
    while let Some(next) = next_dashed(text, &left) {
        if is_delimiter(boundary, next.line) {
            let passed = tail.marks.len() - left.marks.len();
            return cut(text, tail, next.mark, passed);
        }
        left = next.behind;
    }
    Section {
        to: text.len(),
        tail: *tail,
    }
}

// Adds the part that a line opens, if it does.
fn add_section<'a>(
    sections: &mut Vec<Section<'a>>,
    boundary: &[u8],
    text: &'a [u8],
    line: &[u8],
    behind: &Tail<'a>,
) -> Result<(), AllocError>
    requires { IsTail text.now behind.now }
    ensures parts { OnOk result (map (section_in text.now) sections.new.items ≡ map (section_in text.now) sections.old.items ++ opened_part boundary.now line.now behind.now.from (lines_of (drop behind.now.from text.now))) }
    ensures is { All (IsSection text.now) sections.old.items → OnOk result (All (IsSection text.now) sections.new.items) }
{
    if opens_part(boundary, line) {
        sections.push(next_section(boundary, text, behind))?;
    }
    Ok(())
}

/// The parts of a multipart body.
pub(crate) fn sections<'a>(
    alloc: Global,
    boundary: &[u8],
    text: &'a [u8],
    body: &Tail<'a>,
) -> Result<Vec<Section<'a>>, AllocError>
    requires { IsTail text.now body.now }
    ensures parts { IfOk result (λ v. map (section_in text.now) v.items ≡ parts_of_body boundary.now body.now.from (drop body.now.from text.now)) }
    ensures is { IfOk result (λ v. All (IsSection text.now) v.items) }
{
    let mut sections = Vec::new(alloc);
    let mut left = *body;
    while let Some(next) = next_dashed(text, &left) {
        if closes_parts(boundary, next.line) {
            return Ok(sections);
        }
        add_section(&mut sections, boundary, text, next.line, &next.behind)?;
        left = next.behind;
    }
    Ok(sections)
}
