// One mailbox (RFC 5322, section 3.4.1, and section 4.4 for routes).
ghost use Rattle.std.specs.Prelude.{◌≡◌, [], None, Some, map, IfOk};
ghost use Rattle.addr_list.specs.Scanning.{token_of};
ghost use Rattle.addr_list.specs.Addresses.{phrase_of, local_of, host_of};
ghost use Rattle.addr_list.specs.Reading.{mailbox_of, spec_of, route_from, angle_of, named_angle};

use crate::address::Address;
use crate::mark::{begins, parts_length, until};
use crate::token::Token;
use crate::word::{host, local, phrase};
use mail_fields::Bytes;
use std::alloc::{AllocError, Global};

/// A local part alone.
pub(crate) fn bare(alloc: Global, words: &[Token<'_>]) -> Result<Option<Address>, AllocError>
    ensures { IfOk result (λ found. found ≡ mailbox_of None None (local_of (map token_of words.now)) (Some [])) }
{
    let Some(local) = local(alloc, words)? else {
        return Ok(None);
    };
    let host = Bytes::from_vec(Vec::new(alloc));
    Ok(Some(Address::Mailbox {
        name: None,
        route: None,
        local,
        host,
    }))
}

// What a local part and a host make.
fn mailbox(
    alloc: Global,
    name: Option<Bytes>,
    route: Option<Bytes>,
    left: &[Token<'_>],
    right: &[Token<'_>],
) -> Result<Option<Address>, AllocError>
    ensures { IfOk result (λ found. found ≡ mailbox_of name route (local_of (map token_of left.now)) (host_of (map token_of right.now))) }
{
    let Some(local) = local(alloc, left)? else {
        return Ok(None);
    };
    let Some(host) = host(alloc, right)? else {
        return Ok(None);
    };
    Ok(Some(Address::Mailbox {
        name,
        route,
        local,
        host,
    }))
}

/// A local part and a host without angle brackets.
pub(crate) fn plain(
    alloc: Global,
    left: &[Token<'_>],
    right: &[Token<'_>],
) -> Result<Option<Address>, AllocError>
    ensures { IfOk result (λ found. found ≡ mailbox_of None None (local_of (map token_of left.now)) (host_of (map token_of right.now))) }
{
    mailbox(alloc, None, None, left, right)
}

// A local part, `@` and a host, and nothing else.
#[tactic(auto, unfolding(crate::specs::Reading::spec_of))]
fn spec(
    alloc: Global,
    name: Option<Bytes>,
    route: Option<Bytes>,
    tokens: &[Token<'_>],
) -> Result<Option<Address>, AllocError>
    ensures { IfOk result (λ found. found ≡ spec_of name route (map token_of tokens.now)) }
{
    let width = parts_length(tokens);
    if begins(&tokens[width..], b'@') {
        mailbox(alloc, name, route, &tokens[..width], &tokens[width + 1..])
    } else {
        Ok(None)
    }
}

// The hosts of a route, each with its `@`, and commas between them.
fn route(alloc: Global, tokens: &[Token<'_>]) -> Result<Option<Bytes>, AllocError>
    ensures { IfOk result (λ found. found ≡ route_from None (map token_of tokens.now)) }
{
    let mut route = Vec::new(alloc);
    let mut at = 0;
    while begins(&tokens[at..], b'@') {
        let behind = &tokens[at + 1..];
        let width = until(behind, b',');
        let Some(host) = host(alloc, &behind[..width])? else {
            return Ok(None);
        };
        route.push(b'@')?;
        route.extend_from_slice(host.as_slice())?;
        at += width + 1;
        if at == tokens.len() {
            return Ok(Some(Bytes::from_vec(route)));
        }
        route.push(b',')?;
        at += 1;
    }
    Ok(None)
}

// What stands in angle brackets, behind a display name or none.
#[tactic(auto, unfolding(crate::specs::Reading::angle_of))]
fn angle(
    alloc: Global,
    name: Option<Bytes>,
    tokens: &[Token<'_>],
) -> Result<Option<Address>, AllocError>
    ensures { IfOk result (λ found. found ≡ angle_of name (map token_of tokens.now)) }
{
    if !begins(tokens, b'@') {
        return spec(alloc, name, None, tokens);
    }
    let width = until(tokens, b':');
    if width == tokens.len() {
        return Ok(None);
    }
    let Some(route) = route(alloc, &tokens[..width])? else {
        return Ok(None);
    };
    spec(alloc, name, Some(route), &tokens[width + 1..])
}

/// An angle address: the words before its brackets, and what stands in them.
pub(crate) fn named(
    alloc: Global,
    words: &[Token<'_>],
    inner: &[Token<'_>],
) -> Result<Option<Address>, AllocError>
    ensures { IfOk result (λ found. found ≡ named_angle (map token_of words.now) (phrase_of (map token_of words.now)) (map token_of inner.now)) }
{
    if words.is_empty() {
        return angle(alloc, None, inner);
    }
    let Some(name) = phrase(alloc, words)? else {
        return Ok(None);
    };
    angle(alloc, Some(name), inner)
}
