// One element of an address list (RFC 5322, section 3.4).
ghost use Rattle.std.specs.Prelude.{◌≡◌, ◌+◌, ◌<◌, ◌^◌, length, map, IfOk};
ghost use Rattle.addr_list.specs.Scanning.{token_of};
ghost use Rattle.addr_list.specs.Addresses.{phrase_of};
ghost use Rattle.addr_list.specs.Reading.{mailbox_element, group_element, group_start, angle_element, plain_element, element_of};

use crate::address::Address;
use crate::mailbox::{bare, named, plain};
use crate::mark::{begins, parts_length, until};
use crate::token::Token;
use crate::word::phrase;
use std::alloc::{AllocError, Global};

/// How many tokens an element takes, what it adds to the list, and whether it begins a group.
#[derive(Drop)]
pub(crate) struct Element {
    pub(crate) width: usize,
    pub(crate) address: Option<Address>,
    pub(crate) opens: bool,
}

fn mailbox_element(width: usize, address: Option<Address>) -> Option<Element>
    ensures { result ≡ mailbox_element width address }
{
    let address = address?;
    Some(Element {
        width,
        address: Some(address),
        opens: false,
    })
}

fn group_element(width: usize, address: Option<Address>) -> Option<Element>
    ensures { result ≡ group_element width address }
{
    let address = address?;
    Some(Element {
        width,
        address: Some(address),
        opens: true,
    })
}

fn group_start(alloc: Global, words: &[Token<'_>]) -> Result<Option<Address>, AllocError>
    ensures { IfOk result (λ found. found ≡ group_start (phrase_of (map token_of words.now))) }
{
    let Some(name) = phrase(alloc, words)? else {
        return Ok(None);
    };
    Ok(Some(Address::GroupStart(name)))
}

// An angle address, by the words before its first bracket and what stands behind it.
#[tactic(auto, unfolding(crate::specs::Reading::angle_element))]
fn angle_element(
    alloc: Global,
    words: &[Token<'_>],
    inner: &[Token<'_>],
) -> Result<Option<Element>, AllocError>
    requires { length words.now + 1 + length inner.now < 2 ^ 64 }
    ensures { IfOk result (λ found. found ≡ angle_element (length words.now) (map token_of words.now) (map token_of inner.now)) }
{
    let width = until(inner, b'>');
    if width == inner.len() {
        return Ok(None);
    }
    let address = named(alloc, words, &inner[..width])?;
    Ok(mailbox_element(words.len() + 1 + (width + 1), address))
}

// A mailbox without brackets, by the words before its `@` and what stands behind it.
#[tactic(auto, unfolding(crate::specs::Reading::plain_element))]
fn plain_element(
    alloc: Global,
    words: &[Token<'_>],
    inner: &[Token<'_>],
) -> Result<Option<Element>, AllocError>
    requires { length words.now + 1 + length inner.now < 2 ^ 64 }
    ensures { IfOk result (λ found. found ≡ plain_element (length words.now) (map token_of words.now) (map token_of inner.now)) }
{
    let width = parts_length(inner);
    let address = plain(alloc, words, &inner[..width])?;
    Ok(mailbox_element(words.len() + 1 + width, address))
}

/// The element at the front of some tokens, which may be nothing.
pub(crate) fn read_element(
    alloc: Global,
    tokens: &[Token<'_>],
) -> Result<Option<Element>, AllocError>
    ensures { IfOk result (λ found. found ≡ element_of (map token_of tokens.now)) }
{
    let width = parts_length(tokens);
    let words = &tokens[..width];
    let tail = &tokens[width..];
    if begins(tail, b':') {
        let address = group_start(alloc, words)?;
        return Ok(group_element(width + 1, address));
    }
    if begins(tail, b'<') {
        return angle_element(alloc, words, &tail[1..]);
    }
    if begins(tail, b'@') {
        return plain_element(alloc, words, &tail[1..]);
    }
    if width == 0 {
        return Ok(Some(Element {
            width: 0,
            address: None,
            opens: false,
        }));
    }
    let address = bare(alloc, words)?;
    Ok(mailbox_element(width, address))
}
