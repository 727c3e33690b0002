// Numbers of a command.
ghost use Rattle.std.specs.Prelude.{◌≡◌, ◌≤◌, ◌<◌, ◌^◌, min, true, false, length};
ghost use Rattle.std.specs.List.{prefix_len, list_all};
ghost use Rattle.std.specs.Char.{is_ascii_digit};
ghost use Rattle.imap_arguments.specs.Readings.{Gives};
ghost use Rattle.imap_arguments.specs.Numbers.{decimal_value, is_in_range, number_in, digits_at, number_at, nonzero_at};

use crate::reason::{Reason, Refused};
use crate::token::broken_off;

const PAST: u64 = 4_294_967_296;

// How many digits stand at the front.
pub(crate) fn digits(bytes: &[u8]) -> usize
    ensures value { result ≡ prefix_len is_ascii_digit bytes.now }
    ensures within { result ≤ length bytes.now }
{
    bytes
        .iter()
        .take_while(|byte| byte.is_ascii_digit())
        .count()
}

// The number that digits write, or 2^32 where it is larger.
fn capped_value(digits: &[u8]) -> u64
    ensures { result ≡ min (decimal_value 0 digits.now) 4294967296 }
{
    let mut value: u64 = 0;
    for digit in digits {
        let more = 10 * value + u64::from(digit.saturating_sub(b'0'));
        value = more.min(PAST);
    }
    value
}

fn is_in_range(zero_counts: bool, number: u64) -> bool
    ensures { result ≡ is_in_range zero_counts number }
{
    number < PAST && (zero_counts || number != 0)
}

// The number that digits write, ten at most.
#[tactic(auto, unfolding(crate::specs::Numbers::number_in))]
fn number_in(zero_counts: bool, digits: &[u8]) -> Result<u32, Refused>
    ensures { Gives (λ n. n) result (number_in zero_counts digits.now) }
{
    let value = capped_value(digits);
    if !is_in_range(zero_counts, value) {
        return Err(Refused::Bad(Reason::OutOfRange));
    }
    if digits.len() > 10 {
        return Err(Refused::Bad(Reason::NotUnderstood));
    }
    Ok(value as u32)
}

// The number at the front, and what stands behind its digits.
#[tactic(auto, unfolding(crate::specs::Numbers::digits_at))]
fn digits_at(zero_counts: bool, bytes: &[u8]) -> Result<(u32, &[u8]), Refused>
    ensures { Gives (λ x. (x.0, x.1.now)) result (digits_at zero_counts bytes.now) }
{
    let width = digits(bytes);
    if width == 0 {
        return Err(Refused::Bad(broken_off(bytes)));
    }
    let number = number_in(zero_counts, &bytes[..width])?;
    Ok((number, &bytes[width..]))
}

/// A number that may be 0.
pub fn number_at(bytes: &[u8]) -> Result<(u32, &[u8]), Refused>
    ensures { Gives (λ x. (x.0, x.1.now)) result (number_at bytes.now) }
{
    digits_at(true, bytes)
}

/// A number that isn't 0.
pub fn nonzero_at(bytes: &[u8]) -> Result<(u32, &[u8]), Refused>
    ensures { Gives (λ x. (x.0, x.1.now)) result (nonzero_at bytes.now) }
{
    digits_at(false, bytes)
}
