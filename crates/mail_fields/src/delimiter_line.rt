// Delimiter lines, which the messages of a unix file begin with (RFC 4155, appendix A).
ghost use Rattle.std.specs.Prelude.{◌≡◌, MatchOption, Some, None};
ghost use Rattle.mail_fields.specs.DelimiterLine.{date_at_end, date_behind_space, is_short, is_one_line, delimiter_stamp, is_delimiter_line};
ghost use Rattle.mail_fields.specs.Stamps.{ReadsAs, parts_of};

use crate::from_date::read_date;
use crate::stamp::Stamp;
use text_lines::{line_length, line_text};

// All lengths that a from date can have, the longest first.
const DATE_LENGTHS: [usize; 6] = [30, 28, 27, 25, 24, 21];

// The from date that the last bytes of a text are, if a space stands before them.
#[tactic(auto, unfolding(crate::specs::DelimiterLine::date_at_end))]
fn read_date_at_end(text: &[u8], width: usize) -> Option<Stamp>
    ensures { ReadsAs result (date_at_end text.now width) }
{
    if width < text.len() && text[text.len() - width - 1] == b' ' {
        read_date(&text[text.len() - width..])
    } else {
        None
    }
}

// The from date behind the first space that has one behind it.
fn read_date_behind_space(text: &[u8]) -> Option<Stamp>
    ensures { ReadsAs result (date_behind_space text.now) }
{
    for width in DATE_LENGTHS {
        let found = read_date_at_end(text, width);
        if found.is_some() {
            return found;
        }
    }
    None
}

// At most 998 bytes, and 1,000 with the line end (RFC 5322, section 2.1.1).
fn is_short_line(line: &[u8]) -> bool
    ensures { result ≡ is_short line.now }
{
    line.len() <= 1000 && line_text(line).len() <= 998
}

fn is_one_line(line: &[u8]) -> bool
    ensures { result ≡ is_one_line line.now }
{
    line_length(line) == line.len()
}

/// The stamp of a delimiter line, and none where the line is no delimiter line.
///
/// A date without seconds has second 0 of its minute, and one without a zone is in UTC.
#[tactic(auto, unfolding(crate::specs::DelimiterLine::delimiter_stamp))]
pub fn read_from_date(line: &[u8]) -> Option<Stamp>
    ensures { MatchOption result (delimiter_stamp line.now ≡ None)
        (λ stamp. delimiter_stamp line.now ≡ Some (parts_of stamp)) }
{
    if line.starts_with(b"From ") && is_short_line(line) && is_one_line(line) {
        read_date_behind_space(&line_text(line)[4..])
    } else {
        None
    }
}

/// Whether the line is one that a message of a unix file begins with.
pub fn is_delimiter_line(line: &[u8]) -> bool
    ensures { result ≡ is_delimiter_line line.now }
{
    read_from_date(line).is_some()
}
