// The words of a phrase, and the atoms and dots of a local part or a host
// (RFC 5322, sections 3.2.3 to 3.2.5 and 3.4.1).
ghost use Rattle.std.specs.Prelude.{◌≡◌, ◌++◌, true, false, Some, None, map, IfOk, OnOk, MatchOption};
ghost use Rattle.addr_list.specs.Scanning.{token_of};
ghost use Rattle.addr_list.specs.Addresses.{behind, unquoted, word_of, host_word, phrase_of, begins_dot, ends_dot, next_run, leaves_dot, dotted_of, local_of, host_of};

use crate::token::Token;
use mail_fields::Bytes;
use std::alloc::{AllocError, Global};

fn begins_dot(bytes: &[u8]) -> bool
    ensures { result ≡ begins_dot bytes.now }
{
    !bytes.is_empty() && bytes[0] == b'.'
}

fn ends_dot(bytes: &[u8]) -> bool
    ensures { result ≡ ends_dot bytes.now }
{
    !bytes.is_empty() && bytes[bytes.len() - 1] == b'.'
}

/// Appends what a quoted string stands for, without the backslash of each pair.
pub fn push_unquoted(out: &mut Vec<u8>, inner: &[u8]) -> Result<(), AllocError>
    ensures { OnOk result (out.new.items ≡ out.old.items ++ unquoted inner.now) }
{
    let mut escaped = false;
    for byte in inner {
        if !escaped && *byte == b'\\' {
            escaped = true;
        } else {
            out.push(*byte)?;
            escaped = false;
        }
    }
    Ok(())
}

// Appends a word, unless the token is none.
fn push_word(out: &mut Vec<u8>, token: Token<'_>) -> Result<bool, AllocError>
    ensures yes { IfOk result (λ is. is ≡ true → Some out.new.items ≡ behind out.old.items (word_of (token_of token.entry))) }
    ensures no { IfOk result (λ is. is ≡ false → word_of (token_of token.entry) ≡ None) }
{
    match token {
        Token::Run(bytes) => out.extend_from_slice(bytes)?,
        Token::Quoted(inner) => push_unquoted(out, inner)?,
        Token::Literal(_) | Token::Mark(_) => return Ok(false),
    }
    Ok(true)
}

/// The words of some tokens with one space between them, if all are words and there is one.
pub(crate) fn phrase(alloc: Global, tokens: &[Token<'_>]) -> Result<Option<Bytes>, AllocError>
    ensures { IfOk result (λ found. found ≡ phrase_of (map token_of tokens.now)) }
{
    let Some((first, more)) = tokens.split_first() else {
        return Ok(None);
    };
    let mut phrase = Vec::new(alloc);
    if !push_word(&mut phrase, *first)? {
        return Ok(None);
    }
    for token in more {
        phrase.push(b' ')?;
        if !push_word(&mut phrase, *token)? {
            return Ok(None);
        }
    }
    Ok(Some(Bytes::from_vec(phrase)))
}

// A run that may stand behind one which ends in a dot or doesn't.
fn next_run<'a>(dot: bool, token: Token<'a>) -> Option<&'a [u8]>
    ensures value { MatchOption result (next_run dot (token_of token.entry) ≡ None) (λ run. next_run dot (token_of token.entry) ≡ Some run.now) }
    ensures last { MatchOption result (next_run dot (token_of token.entry) ≡ None) (λ run. leaves_dot (token_of token.entry) ≡ ends_dot run.now) }
{
    match token {
        Token::Run(bytes) if dot || begins_dot(bytes) => Some(bytes),
        _ => None,
    }
}

// Atoms and dots in a row.
fn dotted(alloc: Global, tokens: &[Token<'_>]) -> Result<Option<Bytes>, AllocError>
    ensures { IfOk result (λ found. found ≡ dotted_of (map token_of tokens.now)) }
{
    let mut joined = Vec::new(alloc);
    let mut dot = true;
    for token in tokens {
        let Some(run) = next_run(dot, *token) else {
            return Ok(None);
        };
        joined.extend_from_slice(run)?;
        dot = ends_dot(run);
    }
    Ok(Some(Bytes::from_vec(joined)))
}

fn word(alloc: Global, token: Token<'_>) -> Result<Option<Bytes>, AllocError>
    ensures { IfOk result (λ found. found ≡ word_of (token_of token.entry)) }
{
    let mut word = Vec::new(alloc);
    if push_word(&mut word, token)? {
        Ok(Some(Bytes::from_vec(word)))
    } else {
        Ok(None)
    }
}

fn host_word(alloc: Global, token: Token<'_>) -> Result<Option<Bytes>, AllocError>
    ensures { IfOk result (λ found. found ≡ host_word (token_of token.entry)) }
{
    match token {
        Token::Run(bytes) | Token::Literal(bytes) => Ok(Some(Bytes::of(alloc, bytes)?)),
        Token::Quoted(_) | Token::Mark(_) => Ok(None),
    }
}

/// The local part that some tokens are.
pub(crate) fn local(alloc: Global, tokens: &[Token<'_>]) -> Result<Option<Bytes>, AllocError>
    ensures { IfOk result (λ found. found ≡ local_of (map token_of tokens.now)) }
{
    match tokens.len() {
        0 => Ok(None),
        1 => word(alloc, tokens[0]),
        _ => dotted(alloc, tokens),
    }
}

/// The host that some tokens are.
pub(crate) fn host(alloc: Global, tokens: &[Token<'_>]) -> Result<Option<Bytes>, AllocError>
    ensures { IfOk result (λ found. found ≡ host_of (map token_of tokens.now)) }
{
    match tokens.len() {
        0 => Ok(None),
        1 => host_word(alloc, tokens[0]),
        _ => dotted(alloc, tokens),
    }
}
