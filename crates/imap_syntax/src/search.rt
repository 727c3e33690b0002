// Search keys that have keys in them, on a stack.
ghost use Rattle.std.specs.Prelude.{◌≡◌, ◌≤◌, ◌<◌, ◌+◌, ◌*◌, ◌-◌, ◌++◌, ◌∷◌, [], ℕ, List, true, length, IfOk, IfSome};
ghost use Rattle.std.specs.List.{list_all};
ghost use Rattle.imap_arguments.specs.Laws.{nonzero};
ghost use Rattle.imap_syntax.specs.Laws.{key_parts};
ghost use Rattle.imap_arguments.specs.Readings.{Gives};
ghost use Rattle.imap_syntax.specs.Keys.{add_key, keys_with, all_of, search_keys_at, keys_of, key_at, key_of, numbers_at, opening_of, parenthesis, negation, either};
ghost use Rattle.imap_syntax.specs.Stack.{given, unwound, followed, opened, gone_on, first_read, deeper, ahead, Leads, opening_in};
ghost use Rattle.imap_arguments.specs.Tokens.{begins};
ghost use Rattle.imap_arguments.specs.Sections.{begins_digit};

use crate::key::Key;
use crate::leaf::leaf_at;
use imap_arguments::{Refused, begins, broken_off, byte_at, set_at, token_at};
use mail_fields::Bytes;
use sqlite_items::{Boxed, Items};
use std::alloc::{AllocError, Global};
use std::collections::VecDeque;

// The levels of keys that a command may have.
const LEVELS: usize = 100;

/// A key that is begun, which waits for a key in it.
#[derive(Drop)]
pub(crate) enum Frame {
    Negated,
    FirstOf,
    SecondOf(Key),
    /// The keys before it in parentheses, and how many may follow at most.
    Among(Vec<Key>, usize),
}

/// What is next: a key is read in the innermost that is begun, or was read.
#[derive(Drop)]
pub(crate) enum Step<'a> {
    Deeper(&'a [u8]),
    Found(Key, &'a [u8]),
}

// A set of message numbers.
fn numbers_at<'a>(
    alloc: Global,
    bytes: &'a [u8],
    literals: &mut VecDeque<Bytes>,
) -> Result<(Key, &'a [u8]), Refused>
    ensures { Gives (λ x. record { key = x.0; rest = x.1.now; literals = literals.new.items }) result (numbers_at bytes.now literals.old.items) }
{
    let (set, rest) = set_at(alloc, bytes)?;
    Ok((Key::Numbers(set), rest))
}

// What a key begins with, and what stands behind that.
pub(crate) enum Opening<'a> {
    Parenthesis(&'a [u8]),
    Numbers(&'a [u8]),
    Negation(&'a [u8]),
    Either(&'a [u8]),
    Leaf(&'a [u8], &'a [u8]),
}

// Whether a digit stands at the front.
fn begins_number(bytes: &[u8]) -> bool
    ensures { result ≡ begins_digit bytes.now }
{
    match bytes {
        [first, ..] => first.is_ascii_digit(),
        _ => false,
    }
}

#[tactic(auto, unfolding(crate::specs::Keys::opening_of))]
fn opening_of(bytes: &[u8]) -> Result<Opening<'_>, Refused>
    ensures { Gives opening_in result (opening_of bytes.now) }
{
    if begins(b'(', bytes) {
        return Ok(Opening::Parenthesis(&bytes[1..]));
    }
    if begins_number(bytes) || begins(b'*', bytes) {
        return Ok(Opening::Numbers(bytes));
    }
    let (word, rest) = token_at(bytes)?;
    if word.eq_ignore_ascii_case(b"NOT") {
        return Ok(Opening::Negation(rest));
    }
    if word.eq_ignore_ascii_case(b"OR") {
        return Ok(Opening::Either(rest));
    }
    Ok(Opening::Leaf(word, rest))
}

fn begin_negation<'a>(frames: &mut Vec<Frame>, rest: &'a [u8]) -> Result<Step<'a>, Refused>
    requires { length frames.old.items < 100 }
    ensures leads { (literals : List (List ℕ)) → Leads result frames.new.items literals (opened frames.old.items literals (negation rest.now)) }
    ensures shallow { length frames.new.items ≤ 100 }
    ensures nearer { IfOk result (λ step. ahead frames.new.items step < 102 * length rest.now) }
{
    let behind = byte_at(b' ', rest)?;
    frames.push(Frame::Negated)?;
    Ok(Step::Deeper(behind))
}

fn begin_either<'a>(frames: &mut Vec<Frame>, rest: &'a [u8]) -> Result<Step<'a>, Refused>
    requires { length frames.old.items < 100 }
    ensures leads { (literals : List (List ℕ)) → Leads result frames.new.items literals (opened frames.old.items literals (either rest.now)) }
    ensures shallow { length frames.new.items ≤ 100 }
    ensures nearer { IfOk result (λ step. ahead frames.new.items step < 102 * length rest.now) }
{
    let behind = byte_at(b' ', rest)?;
    frames.push(Frame::FirstOf)?;
    Ok(Step::Deeper(behind))
}

fn begin_list<'a>(
    alloc: Global,
    frames: &mut Vec<Frame>,
    inner: &'a [u8],
) -> Result<Step<'a>, Refused>
    requires { length frames.old.items < 100 }
    ensures leads { (literals : List (List ℕ)) → Leads result frames.new.items literals (opened frames.old.items literals (parenthesis inner.now)) }
    ensures shallow { length frames.new.items ≤ 100 }
    ensures nearer { IfOk result (λ step. ahead frames.new.items step ≤ 102 * length inner.now + 101) }
{
    if inner.is_empty() {
        return Err(Refused::Bad(broken_off(inner)));
    }
    frames.push(Frame::Among(Vec::new(alloc), inner.len() - 1))?;
    Ok(Step::Deeper(inner))
}

// Begins the key at the front, or reads it where no keys are in it.
fn open_key<'a>(
    alloc: Global,
    frames: &mut Vec<Frame>,
    bytes: &'a [u8],
    literals: &mut VecDeque<Bytes>,
) -> Result<Step<'a>, Refused>
    ensures leads { Leads result frames.new.items literals.new.items (deeper frames.old.items bytes.now literals.old.items) }
    ensures shallow { length frames.old.items ≤ 100 → length frames.new.items ≤ 100 }
    ensures nearer { IfOk result (λ step. ahead frames.new.items step < 102 * length bytes.now + 101) }
{
    if frames.len() >= LEVELS {
        return Err(Refused::Bad(broken_off(bytes)));
    }
    match opening_of(bytes)? {
        Opening::Parenthesis(inner) => begin_list(alloc, frames, inner),
        Opening::Negation(rest) => begin_negation(frames, rest),
        Opening::Either(rest) => begin_either(frames, rest),
        Opening::Numbers(set) => {
            let (key, rest) = numbers_at(alloc, set, literals)?;
            Ok(Step::Found(key, rest))
        }
        Opening::Leaf(word, rest) => {
            let (key, rest) = leaf_at(alloc, word, rest, literals)?;
            Ok(Step::Found(key, rest))
        }
    }
}

// A key more in parentheses: they end, or one more follows.
fn go_on<'a>(
    frames: &mut Vec<Frame>,
    before: Vec<Key>,
    room: usize,
    rest: &'a [u8],
) -> Result<Step<'a>, Refused>
    requires { length frames.old.items < 100 }
    ensures shallow { length frames.new.items ≤ 100 }
    ensures leads { (literals : List (List ℕ)) → Leads result frames.new.items literals
        (gone_on frames.old.items literals before.items room rest.now) }
    ensures nearer { IfOk result (λ step. ahead frames.new.items step ≤ 102 * length rest.now + length frames.old.items) }
{
    if begins(b' ', rest) {
        let behind = &rest[1..];
        if room == 0 {
            return Err(Refused::Bad(broken_off(behind)));
        }
        frames.push(Frame::Among(before, room - 1))?;
        return Ok(Step::Deeper(behind));
    }
    let behind = byte_at(b')', rest)?;
    Ok(Step::Found(Key::AllOf(Items::from_vec(before)), behind))
}

// Behind the first key of OR.
fn begin_second<'a>(frames: &mut Vec<Frame>, key: Key, rest: &'a [u8]) -> Result<Step<'a>, Refused>
    requires { length frames.old.items < 100 }
    ensures shallow { length frames.new.items ≤ 100 }
    ensures leads { (literals : List (List ℕ)) → Leads result frames.new.items literals (first_read frames.old.items literals key rest.now) }
    ensures nearer { IfOk result (λ step. ahead frames.new.items step < 102 * length rest.now) }
{
    let behind = byte_at(b' ', rest)?;
    frames.push(Frame::SecondOf(key))?;
    Ok(Step::Deeper(behind))
}

// Gives a key that was read to the innermost that is begun, which was taken from the others.
fn close_key<'a>(
    alloc: Global,
    frames: &mut Vec<Frame>,
    innermost: Frame,
    key: Key,
    rest: &'a [u8],
) -> Result<Step<'a>, Refused>
    requires { length frames.old.items < 100 }
    ensures shallow { length frames.new.items ≤ 100 }
    ensures leads { (literals : List (List ℕ)) → Leads result frames.new.items literals
        (unwound 0 (frames.old.items ++ innermost ∷ []) (record { key = key; rest = rest.now; literals = literals })) }
    ensures nearer { IfOk result (λ step. ahead frames.new.items step ≤ 102 * length rest.now + length frames.old.items) }
{
    match innermost {
        Frame::Negated => Ok(Step::Found(Key::Not(Boxed::new(alloc, key)?), rest)),
        Frame::FirstOf => begin_second(frames, key, rest),
        Frame::SecondOf(one) => {
            let one = Boxed::new(alloc, one)?;
            let other = Boxed::new(alloc, key)?;
            Ok(Step::Found(Key::Or(one, other), rest))
        }
        Frame::Among(before, room) => {
            let mut before = before;
            before.push(key)?;
            go_on(frames, before, room, rest)
        }
    }
}

/// The key at the front, with all keys in it.
pub(crate) fn key_at<'a>(
    alloc: Global,
    bytes: &'a [u8],
    literals: &mut VecDeque<Bytes>,
) -> Result<(Key, &'a [u8]), Refused>
    ensures { Gives (λ x. record { key = x.0; rest = x.1.now; literals = literals.new.items }) result (key_at 100 bytes.now literals.old.items) }
{
    let mut frames = Vec::new(alloc);
    let mut step = Step::Deeper(bytes);
    loop {
        step = match step {
            Step::Deeper(rest) => open_key(alloc, &mut frames, rest, literals)?,
            Step::Found(key, rest) => match frames.pop() {
                Some(innermost) => close_key(alloc, &mut frames, innermost, key, rest)?,
                None => return Ok((key, rest)),
            },
        };
    }
}

// A key more behind those that are read.
fn add_key<'a>(
    alloc: Global,
    keys: &mut Vec<Key>,
    literals: &mut VecDeque<Bytes>,
    bytes: &'a [u8],
) -> Result<&'a [u8], Refused>
    ensures { Gives (λ rest. (record { keys = keys.new.items; literals = literals.new.items }, rest.now)) result (add_key (key_at 100) (record { keys = keys.old.items; literals = literals.old.items }) bytes.now) }
{
    let (key, rest) = key_at(alloc, bytes, literals)?;
    keys.push(key)?;
    Ok(rest)
}

// Keys with a space between them.
fn inner_keys_at<'a>(
    alloc: Global,
    literals: &mut VecDeque<Bytes>,
    bytes: &'a [u8],
) -> Result<(Vec<Key>, &'a [u8]), Refused>
    ensures { Gives (λ x. (record { keys = x.0.items; literals = literals.new.items }, x.1.now)) result (keys_with (key_at 100) bytes.now literals.old.items) }
{
    let mut keys = Vec::new(alloc);
    let mut rest = bytes;
    for _ in 0..bytes.len() {
        let behind = add_key(alloc, &mut keys, literals, rest)?;
        if !begins(b' ', behind) {
            return Ok((keys, behind));
        }
        rest = &behind[1..];
    }
    Err(Refused::Bad(broken_off(rest)))
}

// One key stands for itself, and several for all of them.
#[tactic(auto, using(crate::proofs::Unwinding::one_key, crate::proofs::Unwinding::several_keys))]
fn all_of(keys: Vec<Key>) -> Key
    ensures { result ≡ all_of keys.items }
{
    let mut keys = keys;
    if keys.len() == 1 {
        if let Some(key) = keys.pop() {
            return key;
        }
    }
    Key::AllOf(Items::from_vec(keys))
}

/// The keys of a command.
#[tactic(auto, unfolding(crate::specs::Keys::search_keys_at))]
pub(crate) fn search_keys_at<'a>(
    alloc: Global,
    bytes: &'a [u8],
    literals: &mut VecDeque<Bytes>,
) -> Result<(Key, &'a [u8]), Refused>
    ensures { Gives (λ x. record { key = x.0; rest = x.1.now; literals = literals.new.items }) result (search_keys_at bytes.now literals.old.items) }
{
    let (keys, rest) = inner_keys_at(alloc, literals, bytes)?;
    Ok((all_of(keys), rest))
}

/// The key that a text without literals is; none where it isn't a list of search keys.
#[tactic(auto, unfolding(crate::specs::Keys::keys_of))]
pub fn read_keys(alloc: Global, text: &[u8]) -> Result<Option<Key>, AllocError>
    ensures value { IfOk result (λ found. found ≡ keys_of text.now) }
    ensures shallow { IfOk result (λ found. IfSome found (λ key. (key_parts key).depth ≤ 101)) }
    ensures numbers { IfOk result (λ found. IfSome found (λ key. nonzero (key_parts key).numbers ≡ true)) }
    ensures texts { IfOk result (λ found. IfSome found (λ key. list_all nonzero (key_parts key).texts ≡ true)) }
{
    if text.contains(&0) {
        return Ok(None);
    }
    let mut literals = VecDeque::new(alloc);
    match search_keys_at(alloc, text, &mut literals) {
        Ok((key, [])) => Ok(Some(key)),
        Ok(_) => Ok(None),
        Err(Refused::Bad(_)) => Ok(None),
        Err(Refused::Memory) => Err(AllocError),
    }
}
