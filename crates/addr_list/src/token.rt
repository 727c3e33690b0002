// The tokens of an address list.
ghost use Rattle.std.specs.Prelude.{map, IfOk, IfNone, IfSome};
ghost use Rattle.addr_list.specs.Tokens.{AreTokens, AreOnlyTokens, HasNoTokens};
ghost use Rattle.addr_list.specs.Scanning.{token_of};

use crate::piece::first_piece;
use std::alloc::{AllocError, Global};

/// What is left of a field body where blanks and comments are skipped.
#[derive(Clone, Copy)]
pub(crate) enum Token<'a> {
    /// Atoms and dots with nothing between them.
    Run(&'a [u8]),
    /// What stands between two quotes, with its backslashes.
    Quoted(&'a [u8]),
    /// A domain literal with its brackets.
    Literal(&'a [u8]),
    /// One of `<`, `>`, `@`, `,`, `;` and `:`.
    Mark(u8),
}

// The tokens of a field body, and none where it has other bytes or ends inside of one.
pub(crate) fn tokens(alloc: Global, value: &[u8]) -> Result<Option<Vec<Token<'_>>>, AllocError>
    ensures some { IfOk result (λ found. IfSome found (λ v. AreTokens value.now (map token_of v.items))) }
    ensures only { IfOk result (λ found. IfSome found (λ v. AreOnlyTokens value.now (map token_of v.items))) }
    ensures none { IfOk result (λ found. IfNone found (HasNoTokens value.now)) }
{
    let mut tokens = Vec::new(alloc);
    let mut at = 0;
    while at < value.len() {
        let Some(piece) = first_piece(&value[at..]) else {
            return Ok(None);
        };
        if let Some(token) = piece.token {
            tokens.push(token)?;
        }
        at += piece.width;
    }
    Ok(Some(tokens))
}
