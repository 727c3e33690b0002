// What stands between the tokens of a content field, and the tokens (RFC 2045, section 5.1).
ghost use Rattle.std.specs.Prelude.{◌≡◌, ◌≤◌, length, take, drop, MatchOption};
ghost use Rattle.std.specs.List.{prefix_len};
ghost use Rattle.mime_parts.specs.Values.{is_white, is_token_byte, IsSkipped, EndsSkipped, IsMark, BeginsMark, BeginsToken, HasNoMark, HasNoToken};

use addr_list::comment_length;

fn is_white(byte: u8) -> bool
    ensures { result ≡ is_white byte }
{
    matches!(byte, b' ' | b'\t' | b'\r' | b'\n')
}

fn is_token_byte(byte: u8) -> bool
    ensures { result ≡ is_token_byte byte }
{
    (0x21..=0x7e).contains(&byte) && !b"()<>@,;:\\\"/[]?=".contains(&byte)
}

/// How far white space and whole comments go in front.
pub(crate) fn skip_length(text: &[u8]) -> usize
    ensures within { result ≤ length text.now }
    ensures skipped { IsSkipped (take result text.now) }
    ensures ends { EndsSkipped (drop result text.now) }
{
    let mut at = 0;
    while at < text.len() {
        if is_white(text[at]) {
            at += 1;
        } else if text[at] == b'(' {
            match comment_length(&text[at + 1..]) {
                Some(inner) => at += inner + 2,
                None => return at,
            }
        } else {
            return at;
        }
    }
    at
}

// How far a token goes in front.
fn token_length(text: &[u8]) -> usize
    ensures value { result ≡ prefix_len is_token_byte text.now }
    ensures within { result ≤ length text.now }
{
    let mut at = 0;
    while at < text.len() && is_token_byte(text[at]) {
        at += 1;
    }
    at
}

/// A token behind what is skipped, and what stands behind it.
#[derive(Clone, Copy)]
pub(crate) struct Word<'a> {
    pub(crate) token: &'a [u8],
    pub(crate) rest: &'a [u8],
}

/// The token at the front of a text.
pub(crate) fn next_word(text: &[u8]) -> Option<Word<'_>>
    ensures { MatchOption result (HasNoToken text.now) (λ word. BeginsToken text.now word.token.now word.rest.now) }
{
    let left = &text[skip_length(text)..];
    let width = token_length(left);
    if width == 0 {
        return None;
    }
    Some(Word {
        token: &left[..width],
        rest: &left[width..],
    })
}

/// What stands behind this byte, where it is the next that isn't skipped.
pub(crate) fn behind(text: &[u8], byte: u8) -> Option<&[u8]>
    requires { IsMark byte }
    ensures { MatchOption result (HasNoMark byte text.now) (λ rest. BeginsMark byte text.now rest.now) }
{
    let from = skip_length(text);
    if from < text.len() && text[from] == byte {
        Some(&text[from + 1..])
    } else {
        None
    }
}
