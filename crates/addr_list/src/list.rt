// The address list of a field body (RFC 5322, section 3.4).
ghost use Rattle.std.specs.Prelude.{◌≡◌, ◌<◌, ◌≤◌, ◌+◌, ◌^◌, true, false, length, map, IfOk, IfNone, IfSome};
ghost use Rattle.addr_list.specs.Scanning.{token_of};
ghost use Rattle.addr_list.specs.Addresses.{is_unfolded, ReadsAddresses, IsOnlyReading, HasNoReading, IsAddressList, IsOnlyList, HasNoList};
ghost use Rattle.addr_list.specs.Reading.{deeper};
ghost use Rattle.addr_list.specs.Readers.{StepsTo, IsStuck, Moves};

use crate::address::Address;
use crate::element::read_element;
use crate::mark::begins;
use crate::token::{Token, tokens};
use memchr::memchr2;
use std::alloc::{AllocError, Global};

// The addresses that are read, where the next tokens stand, how deep in groups, and whether an
// element may begin there.
#[derive(Drop)]
struct Reader {
    addresses: Vec<Address>,
    at: usize,
    depth: usize,
    starts: bool,
}

// One level deeper behind the begin of a group.
fn deeper(opens: bool, depth: usize) -> usize
    requires { depth + 1 < 2 ^ 64 }
    ensures { result ≡ deeper opens depth }
{
    if opens { depth + 1 } else { depth }
}

// Reads an element, unless none can stand there.
fn next_element(
    alloc: Global,
    reader: &mut Reader,
    tokens: &[Token<'_>],
) -> Result<bool, AllocError>
    requires starts { reader.old.starts ≡ true }
    requires within { reader.old.at ≤ length tokens.now }
    requires shallow { reader.old.depth ≤ reader.old.at }
    ensures yes { IfOk result (λ is. is ≡ true → StepsTo (map token_of tokens.now) reader.old reader.new) }
    ensures no { IfOk result (λ is. is ≡ false → IsStuck (map token_of tokens.now) reader.old) }
    ensures moves { IfOk result (λ is. is ≡ true → Moves (length tokens.now) reader.old reader.new) }
{
    let Some(element) = read_element(alloc, &tokens[reader.at..])? else {
        return Ok(false);
    };
    reader.at += element.width;
    reader.starts = element.opens;
    reader.depth = deeper(element.opens, reader.depth);
    if let Some(address) = element.address {
        reader.addresses.push(address)?;
    }
    Ok(true)
}

// Reads the comma or the end of a group that stands behind an element, unless neither does.
fn next_mark(reader: &mut Reader, tokens: &[Token<'_>]) -> Result<bool, AllocError>
    requires starts { reader.old.starts ≡ false }
    requires inside { reader.old.at < length tokens.now }
    requires shallow { reader.old.depth ≤ reader.old.at }
    ensures yes { IfOk result (λ is. is ≡ true → StepsTo (map token_of tokens.now) reader.old reader.new) }
    ensures no { IfOk result (λ is. is ≡ false → IsStuck (map token_of tokens.now) reader.old) }
    ensures moves { IfOk result (λ is. is ≡ true → Moves (length tokens.now) reader.old reader.new) }
{
    let rest = &tokens[reader.at..];
    if begins(rest, b',') {
        reader.at += 1;
        reader.starts = true;
        return Ok(true);
    }
    if reader.depth == 0 {
        return Ok(false);
    }
    if !begins(rest, b';') {
        return Ok(false);
    }
    reader.at += 1;
    reader.depth -= 1;
    reader.addresses.push(Address::GroupEnd)?;
    Ok(true)
}

// Reads what stands next, unless nothing can stand there.
fn next(alloc: Global, reader: &mut Reader, tokens: &[Token<'_>]) -> Result<bool, AllocError>
    requires within { reader.old.at ≤ length tokens.now }
    requires inside { reader.old.starts ≡ false → reader.old.at < length tokens.now }
    requires shallow { reader.old.depth ≤ reader.old.at }
    ensures yes { IfOk result (λ is. is ≡ true → StepsTo (map token_of tokens.now) reader.old reader.new) }
    ensures no { IfOk result (λ is. is ≡ false → IsStuck (map token_of tokens.now) reader.old) }
    ensures moves { IfOk result (λ is. is ≡ true → Moves (length tokens.now) reader.old reader.new) }
{
    if reader.starts {
        next_element(alloc, reader, tokens)
    } else {
        next_mark(reader, tokens)
    }
}

// The address list that some tokens are, with as many ends of groups as begins.
fn read_list(alloc: Global, tokens: &[Token<'_>]) -> Result<Option<Vec<Address>>, AllocError>
    ensures list { IfOk result (λ found. IfSome found (λ v. IsAddressList (map token_of tokens.now) v.items)) }
    ensures only { IfOk result (λ found. IfSome found (λ v. IsOnlyList (map token_of tokens.now) v.items)) }
    ensures none { IfOk result (λ found. IfNone found (HasNoList (map token_of tokens.now))) }
{
    let mut reader = Reader {
        addresses: Vec::new(alloc),
        at: 0,
        depth: 0,
        starts: true,
    };
    while reader.starts || reader.at < tokens.len() {
        if !next(alloc, &mut reader, tokens)? {
            return Ok(None);
        }
    }
    if reader.depth > 0 {
        return Ok(None);
    }
    let Reader { addresses, .. } = reader;
    Ok(Some(addresses))
}

fn is_unfolded(value: &[u8]) -> bool
    ensures { result ≡ is_unfolded value.now }
{
    memchr2(b'\r', b'\n', value).is_none()
}

/// The addresses of an unfolded field body; none where it is outside the grammar.
///
/// A body with a CR or an LF is outside. An empty list has no element; a group stands between its
/// start and its end, also inside of another.
pub fn addresses(alloc: Global, value: &[u8]) -> Result<Option<Vec<Address>>, AllocError>
    ensures reading { IfOk result (λ found. IfSome found (λ v. ReadsAddresses value.now v.items)) }
    ensures only { IfOk result (λ found. IfSome found (λ v. IsOnlyReading value.now v.items)) }
    ensures none { IfOk result (λ found. IfNone found (HasNoReading value.now)) }
{
    if !is_unfolded(value) {
        return Ok(None);
    }
    let Some(tokens) = tokens(alloc, value)? else {
        return Ok(None);
    };
    let Some(addresses) = read_list(alloc, tokens.as_slice())? else {
        return Ok(None);
    };
    Ok(Some(addresses))
}
