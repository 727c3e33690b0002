// How a line ends.
ghost use Rattle.std.specs.Prelude.{◌≡◌, ◌<◌, ◌^◌, IfSome, Some};
ghost use Rattle.raw_commands.specs.Limits.{closed_number, announced, ending_of, ending_at};
ghost use Rattle.raw_commands.specs.Ends.{ending_in};

use mail_fields::read_decimal;
use memchr::memrchr;

/// The bytes that the lines of a command may have together, without their CRLF.
pub const MOST_LINES: usize = 65_536;

/// The bytes that its literals may have together.
pub const MOST_LITERALS: usize = 16_777_216;

// The number that digits and `}` write.
fn closed_number(tail: &[u8]) -> Option<u64>
    ensures value { result ≡ closed_number tail.now }
    ensures small { IfSome result (λ number. number < 10 ^ 10) }
{
    let (last, digits) = tail.split_last()?;
    if *last != b'}' {
        return None;
    }
    read_decimal(digits)
}

/// The size of the literal that a line announces.
#[tactic(auto, unfolding(crate::specs::Limits::announced))]
pub(crate) fn announced(line: &[u8]) -> Option<u64>
    ensures value { result ≡ announced line.now }
    ensures small { IfSome result (λ number. number < 10 ^ 10) }
{
    let brace = memrchr(b'{', line)?;
    closed_number(&line[brace + 1..])
}

/// What a line's end asks for.
#[derive(Clone, Copy)]
pub(crate) enum Ending {
    TooLong,
    TooLarge,
    Whole,
    Literal(usize),
}

// A literal of a size behind literals of so many bytes.
fn literal_ending(literals_size: usize, size: u64) -> Ending
    requires { size < 10 ^ 10 }
    ensures { ending_in result ≡ ending_of literals_size (Some size) }
{
    let size = size as usize;
    if literals_size.saturating_add(size) > MOST_LITERALS {
        return Ending::TooLarge;
    }
    Ending::Literal(size)
}

/// What the end of a line asks for, by the sizes of the command's earlier lines and literals.
#[tactic(auto, unfolding(crate::specs::Limits::ending_at))]
pub(crate) fn ending_at(lines_size: usize, literals_size: usize, line: &[u8]) -> Ending
    ensures { ending_in result ≡ ending_at lines_size literals_size line.now }
{
    if lines_size.saturating_add(line.len()) > MOST_LINES {
        return Ending::TooLong;
    }
    match announced(line) {
        None => Ending::Whole,
        Some(size) => literal_ending(literals_size, size),
    }
}
