// One piece at the front of a field body: a token, a blank or a comment.
ghost use Rattle.std.specs.Prelude.{◌≡◌, MatchOption, Some, None, length, ◌<◌, ◌≤◌, IfSome};
ghost use Rattle.std.specs.Option.{option_map};
ghost use Rattle.std.specs.List.{prefix_len};
ghost use Rattle.text_lines.specs.Blanks.{is_blank};
ghost use Rattle.addr_list.specs.Tokens.{is_mark, is_run_byte};
ghost use Rattle.addr_list.specs.Scanning.{piece_of, token_of};

use crate::span::{comment_length, literal_length, quotes_length};
use crate::token::Token;
use text_lines::is_blank;

/// How long a piece is, and its token unless it is skipped.
#[derive(Clone, Copy)]
pub(crate) struct Piece<'a> {
    pub(crate) width: usize,
    pub(crate) token: Option<Token<'a>>,
}

fn is_mark(byte: u8) -> bool
    ensures { result ≡ is_mark byte }
{
    matches!(byte, b'<' | b'>' | b'@' | b',' | b';' | b':')
}

fn is_run_byte(byte: u8) -> bool
    ensures { result ≡ is_run_byte byte }
{
    byte >= 0x21 && byte != 0x7f && !b"()<>@,;:\\\"[]".contains(&byte)
}

fn run_length(text: &[u8]) -> usize
    ensures value { result ≡ prefix_len is_run_byte text.now }
    ensures within { result ≤ length text.now }
{
    let mut at = 0;
    while at < text.len() && is_run_byte(text[at]) {
        at += 1;
    }
    at
}

// The first piece of a text, if one stands there.
#[tactic(auto, unfolding(crate::specs::Scanning::piece_of))]
pub(crate) fn first_piece(text: &[u8]) -> Option<Piece<'_>>
    ensures value { MatchOption result (piece_of text.now ≡ None)
        (λ piece. piece_of text.now ≡ Some (piece.width, option_map token_of piece.token)) }
    ensures within { IfSome result (λ piece. piece.width ≤ length text.now) }
    ensures some { IfSome result (λ piece. 0 < piece.width) }
{
    let (first, rest) = text.split_first()?;
    match *first {
        b'(' => {
            let inner = comment_length(rest)?;
            Some(Piece {
                width: inner + 2,
                token: None,
            })
        }
        b'"' => {
            let inner = quotes_length(rest)?;
            Some(Piece {
                width: inner + 2,
                token: Some(Token::Quoted(&rest[..inner])),
            })
        }
        b'[' => {
            let inner = literal_length(rest)?;
            Some(Piece {
                width: inner + 2,
                token: Some(Token::Literal(&text[..inner + 2])),
            })
        }
        byte if is_blank(byte) => Some(Piece {
            width: 1,
            token: None,
        }),
        byte if is_mark(byte) => Some(Piece {
            width: 1,
            token: Some(Token::Mark(byte)),
        }),
        byte if is_run_byte(byte) => {
            let run = run_length(text);
            Some(Piece {
                width: run,
                token: Some(Token::Run(&text[..run])),
            })
        }
        _ => None,
    }
}
