// Numbers and names as mail writes them.
ghost use Rattle.std.specs.Prelude.{◌≡◌, ◌<◌, ◌≤◌, ◌+◌, ◌%◌, ◌^◌, Some, IfSome, length, drop};
ghost use Rattle.std.specs.List.{list_all};
ghost use Rattle.std.specs.Char.{digit_char, is_ascii_alphabetic};
ghost use Rattle.mail_fields.specs.Numbers.{number_in, number_of, number_below, number_at_front, decimal_of, digits_in, place_of};
ghost use Rattle.mail_fields.specs.Texts.{written_at};

// The number that bytes write in a base, if all are digits of it.
#[tactic(auto, using(crate::proofs::Digits::room_for_digit), unfolding(crate::specs::Numbers::number_in))]
fn read_digits(base: u32, bytes: &[u8]) -> Option<u64>
    requires low { 2 ≤ base }
    requires high { base ≤ 16 }
    requires fits { base ^ length bytes.now ≤ 2 ^ 64 }
    ensures value { result ≡ number_in base bytes.now }
    ensures small { IfSome result (λ number. number < base ^ length bytes.now) }
{
    let mut number: u64 = 0;
    for byte in bytes {
        let Some(digit) = char::from(*byte).to_digit(base) else {
            return None;
        };
        number = u64::from(base) * number + u64::from(digit);
    }
    Some(number)
}

// The number that the first bytes write in a base, so many of them.
fn read_front(base: u32, bytes: &[u8], width: usize) -> Option<u64>
    requires low { 2 ≤ base }
    requires high { base ≤ 16 }
    requires fits { base ^ width ≤ 2 ^ 64 }
    ensures value { result ≡ number_at_front base width bytes.now }
    ensures small { IfSome result (λ number. number < base ^ width) }
{
    if bytes.len() < width {
        return None;
    }
    read_digits(base, &bytes[..width])
}

/// The number that the first bytes write in base 16, in either letter case.
#[tactic(auto, using(crate::proofs::Digits::hex_fits))]
pub fn read_hex(bytes: &[u8], width: usize) -> Option<u64>
    requires low { 1 ≤ width }
    requires high { width ≤ 16 }
    ensures value { result ≡ number_at_front 16 width bytes.now }
    ensures small { IfSome result (λ number. number < 16 ^ width) }
{
    read_front(16, bytes, width)
}

/// The number that the first bytes write in base 8.
#[tactic(auto, using(crate::proofs::Digits::octal_fits))]
pub fn read_octal(bytes: &[u8], width: usize) -> Option<u64>
    requires low { 1 ≤ width }
    requires high { width ≤ 21 }
    ensures value { result ≡ number_at_front 8 width bytes.now }
    ensures small { IfSome result (λ number. number < 8 ^ width) }
{
    read_front(8, bytes, width)
}

/// The number that all bytes write in 1 to 10 decimal digits.
#[tactic(auto, using(crate::proofs::Digits::ten_digits))]
pub fn read_decimal(bytes: &[u8]) -> Option<u64>
    ensures value { result ≡ decimal_of bytes.now }
    ensures small { IfSome result (λ number. number < 10 ^ 10) }
{
    if bytes.is_empty() || bytes.len() > 10 {
        return None;
    }
    read_digits(10, bytes)
}

// A digit of a base up to 16, the letters in lower case.
fn digit_byte(value: u8) -> u8
    requires { value < 16 }
    ensures { result ≡ digit_char value }
{
    if value < 10 {
        b'0' + value
    } else {
        b'a' + (value - 10)
    }
}

// Writes a number in a base, with zeros before it up to the width.
fn put_digits(base: u64, buf: &mut [u8], place: usize, width: usize, n: u64)
    requires low { 2 ≤ base }
    requires high { base ≤ 16 }
    requires room { place + width ≤ length buf.old }
    requires fits { n < base ^ width }
    ensures text { buf.new ≡ written_at buf.old place (digits_in base width n) }
    ensures read { number_at_front base width (drop place buf.new) ≡ Some n }
{
    let mut rest = n;
    let mut left = width;
    while left > 0 {
        left -= 1;
        buf[place + left] = digit_byte((rest % base) as u8);
        rest /= base;
    }
}

/// Writes a number in base 16, in lower case, with zeros before it up to the width.
pub fn put_hex(buf: &mut [u8], place: usize, width: usize, n: u64)
    requires room { place + width ≤ length buf.old }
    requires fits { n < 16 ^ width }
    ensures text { buf.new ≡ written_at buf.old place (digits_in 16 width n) }
    ensures read { number_at_front 16 width (drop place buf.new) ≡ Some n }
{
    put_digits(16, buf, place, width, n);
}

/// Writes a number in base 10, with zeros before it up to the width.
pub fn put_decimal(buf: &mut [u8], place: usize, width: usize, n: u64)
    requires room { place + width ≤ length buf.old }
    requires fits { n < 10 ^ width }
    ensures text { buf.new ≡ written_at buf.old place (digits_in 10 width n) }
    ensures read { number_at_front 10 width (drop place buf.new) ≡ Some n }
{
    put_digits(10, buf, place, width, n);
}

/// Writes a number in base 8, with zeros before it up to the width.
pub fn put_octal(buf: &mut [u8], place: usize, width: usize, n: u64)
    requires room { place + width ≤ length buf.old }
    requires fits { n < 8 ^ width }
    ensures text { buf.new ≡ written_at buf.old place (digits_in 8 width n) }
    ensures read { number_at_front 8 width (drop place buf.new) ≡ Some n }
{
    put_digits(8, buf, place, width, n);
}

// The last decimal digit of a number.
pub(crate) fn digit(number: u32) -> u8
    ensures { result ≡ digit_char (number % 10) }
{
    b'0' + (number % 10) as u8
}

pub(crate) fn two_digits(number: u32) -> [u8; 2]
    ensures { result ≡ digits_in 10 2 number }
{
    [digit(number / 10), digit(number)]
}

pub(crate) fn four_digits(number: u32) -> [u8; 4]
    ensures { result ≡ digits_in 10 4 number }
{
    let tens = number / 10;
    let hundreds = tens / 10;
    let thousands = hundreds / 10;
    [
        digit(thousands),
        digit(hundreds),
        digit(tens),
        digit(number),
    ]
}

// A decimal number of at most four digits.
pub(crate) fn read_number(bytes: &[u8]) -> Option<u32>
    requires { length bytes.now ≤ 4 }
    ensures value { result ≡ number_of bytes.now }
    ensures small { IfSome result (λ number. number < 10 ^ length bytes.now) }
{
    let number = read_digits(10, bytes)?;
    Some(number as u32)
}

// The same, if it is below the limit.
pub(crate) fn read_number_below(limit: u32, bytes: &[u8]) -> Option<u32>
    requires { length bytes.now ≤ 4 }
    ensures value { result ≡ number_below limit bytes.now }
    ensures small { IfSome result (λ number. number < limit) }
{
    let number = read_number(bytes)?;
    (number < limit).then_some(number)
}

// Whether all bytes are letters of ASCII.
pub(crate) fn are_letters(bytes: &[u8]) -> bool
    ensures { result ≡ list_all is_ascii_alphabetic bytes.now }
{
    bytes.iter().all(|byte| byte.is_ascii_alphabetic())
}

// The place of a name among names, in any letter case.
pub(crate) fn place_of(name: &[u8], names: &[[u8; 3]]) -> Option<usize>
    ensures value { result ≡ place_of name.now names.now }
    ensures within { IfSome result (λ place. place < length names.now) }
{
    names
        .iter()
        .position(|each| name.eq_ignore_ascii_case(each))
}
