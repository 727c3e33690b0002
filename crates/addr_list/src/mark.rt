// Where marks stand among tokens.
ghost use Rattle.std.specs.Prelude.{◌≡◌, ◌≤◌, length, map};
ghost use Rattle.std.specs.List.{prefix_len};
ghost use Rattle.addr_list.specs.Scanning.{token_of};
ghost use Rattle.addr_list.specs.Reading.{is_this_mark, is_part, begins, until};

use crate::token::Token;

fn is_this_mark(token: Token<'_>, byte: u8) -> bool
    ensures { result ≡ is_this_mark byte (token_of token.entry) }
{
    match token {
        Token::Mark(mark) => mark == byte,
        _ => false,
    }
}

fn is_part(token: Token<'_>) -> bool
    ensures { result ≡ is_part (token_of token.entry) }
{
    !matches!(token, Token::Mark(_))
}

/// Whether this mark stands first.
pub(crate) fn begins(tokens: &[Token<'_>], byte: u8) -> bool
    ensures { result ≡ begins byte (map token_of tokens.now) }
{
    !tokens.is_empty() && is_this_mark(tokens[0], byte)
}

/// How many tokens stand before the first mark.
pub(crate) fn parts_length(tokens: &[Token<'_>]) -> usize
    ensures value { result ≡ prefix_len is_part (map token_of tokens.now) }
    ensures within { result ≤ length tokens.now }
{
    let mut at = 0;
    while at < tokens.len() && is_part(tokens[at]) {
        at += 1;
    }
    at
}

/// How many tokens stand before the first that is this mark.
pub(crate) fn until(tokens: &[Token<'_>], byte: u8) -> usize
    ensures value { result ≡ until byte (map token_of tokens.now) }
    ensures within { result ≤ length tokens.now }
{
    let mut at = 0;
    while at < tokens.len() && !is_this_mark(tokens[at], byte) {
        at += 1;
    }
    at
}
