// How far a comment, a quoted string and a domain literal go (RFC 5322, sections 3.2.2, 3.2.4 and 3.4.1).
ghost use Rattle.std.specs.Prelude.{◌≡◌, ◌<◌, false, length, IfSome};
ghost use Rattle.addr_list.specs.Scanning.{comment_len, literal_len, quotes_len};

use memchr::memchr;

/// The length of a comment's text, behind its opening parenthesis and up to the one that closes it.
pub fn comment_length(text: &[u8]) -> Option<usize>
    ensures value { result ≡ comment_len false 0 text.now }
    ensures within { IfSome result (λ n. n < length text.now) }
{
    let mut depth: usize = 0;
    let mut escaped = false;
    for (at, byte) in text.iter().enumerate() {
        if escaped {
            escaped = false;
        } else if *byte == b'\\' {
            escaped = true;
        } else if *byte == b'(' {
            depth += 1;
        } else if *byte == b')' {
            if depth == 0 {
                return Some(at);
            }
            depth -= 1;
        }
    }
    None
}

/// The length of what a quoted string has behind its first quote and before its last.
pub fn quotes_length(text: &[u8]) -> Option<usize>
    ensures value { result ≡ quotes_len false text.now }
    ensures within { IfSome result (λ n. n < length text.now) }
{
    let mut escaped = false;
    for (at, byte) in text.iter().enumerate() {
        if escaped {
            escaped = false;
        } else if *byte == b'"' {
            return Some(at);
        } else {
            escaped = *byte == b'\\';
        }
    }
    None
}

// The length of what a domain literal has behind its opening bracket and before its first closing one.
pub(crate) fn literal_length(text: &[u8]) -> Option<usize>
    ensures value { result ≡ literal_len text.now }
    ensures within { IfSome result (λ n. n < length text.now) }
{
    memchr(b']', text)
}
