// The status fields of a message, its keywords by number.
ghost use Rattle.std.specs.Prelude.{◌≡◌, ◌≤◌, ◌∷◌, [], ◌++◌, ◌||◌, true, false, if◌then◌else◌, length, IfOk, IfNone, IfSome, OnOk};
ghost use Rattle.mail_fields.specs.Keyword.{is_keyword, same_keyword};
ghost use Rattle.mail_fields.specs.Names.{are_distinct};
ghost use Rattle.status_heads.specs.Heads.{heads_of};
ghost use Rattle.status_heads.specs.Names.{is_new, names_of, with_names};
ghost use Rattle.status_heads.specs.Numbered.{mark_same, number_of_bits, numbered_heads, word_bits};
ghost use Rattle.status_heads.specs.Numbers.{greatest_uid};

use crate::heads::read_flags;
use crate::names::next_word;
use crate::number::{GREATEST_UID, read_between};
use crate::value::value_named;
use head_fields::fields;
use mail_fields::{Keyword, Keywords, is_taken};
use mail_types::Flags;
use std::alloc::{AllocError, Global};

/// What the status fields of a message say, and the names of its mailbox from then on.
///
/// Bit i of `words` is keyword number i, the i-th of the names.
#[derive(Debug, Drop)]
pub struct NumberedHeads {
    pub flags: Flags,
    pub words: u32,
    pub uid: Option<u32>,
    pub names: Keywords,
}

/// The heads of a text as `read_heads` reads them, with its keywords by number.
///
/// `names` are those of the mailbox so far; the text's new ones stand behind them, up to 30 in all, and
/// further ones have no number. Its words are gone through once, and no list of them is made.
#[tactic(auto, unfolding(crate::specs::Heads::heads_in), using(crate::proofs::FirstNames::with_names_may))]
pub fn read_numbered_heads(
    alloc: Global,
    text: &[u8],
    names: Keywords,
) -> Result<NumberedHeads, AllocError>
    requires few { length names ≤ 30 }
    requires distinct { are_distinct names ≡ true }
    ensures value { IfOk result (λ found. found ≡ numbered_heads names (heads_of text.now)) }
    // so that they can be given to the next call, and written again
    ensures few { IfOk result (λ found. length found.names ≤ 30) }
    ensures distinct { IfOk result (λ found. are_distinct found.names ≡ true) }
    ensures uid_low { IfOk result (λ found. IfSome found.uid (λ uid. 1 ≤ uid)) }
    ensures uid_high { IfOk result (λ found. IfSome found.uid (λ uid. uid ≤ greatest_uid)) }
{
    let fields = fields(alloc, text)?;
    let status = value_named(alloc, text, fields.as_slice(), b"Status")?;
    let more = value_named(alloc, text, fields.as_slice(), b"X-Status")?;
    let words = value_named(alloc, text, fields.as_slice(), b"X-Keywords")?;
    let uid = value_named(alloc, text, fields.as_slice(), b"X-UID")?;
    let (names, words) = read_numbers(alloc, names.into_vec(), words.as_slice())?;
    Ok(NumberedHeads {
        flags: read_flags(status.as_slice(), more.as_slice()),
        words,
        uid: read_between(1, GREATEST_UID, uid.as_slice()),
        names: Keywords::of(names),
    })
}

// The names with the new ones of a value, and the numbers of the value's names among them.
fn read_numbers(
    alloc: Global,
    known: Vec<Keyword>,
    value: &[u8],
) -> Result<(Vec<Keyword>, u32), AllocError>
    requires { length known.items ≤ 30 }
    ensures names { IfOk result (λ found. found.0.items ≡ with_names known.items (names_of value.now)) }
    ensures words { IfOk result (λ found. found.1 ≡ word_bits found.0.items (names_of value.now)) }
{
    let mut names = known;
    let mut marks = Vec::from_elem(alloc, false, names.len())?;
    let mut rest = value;
    while let Some((word, behind)) = next_word(rest) {
        if let Some(name) = read_name(alloc, word)? {
            take_name(&mut names, &mut marks, name)?;
        }
        rest = behind;
    }
    let words = number_of_bits(marks.as_slice());
    Ok((names, words))
}

fn read_name(alloc: Global, word: &[u8]) -> Result<Option<Keyword>, AllocError>
    ensures some { IfOk result (λ found. IfSome found (λ name. (name ≡ word.now) × (is_keyword word.now ≡ true))) }
    ensures none { IfOk result (λ found. IfNone found (is_keyword word.now ≡ false)) }
{
    Keyword::read(alloc, word)
}

// Marks a name among some, which get it where they don't have it and are fewer than 30.
fn take_name(
    names: &mut Vec<Keyword>,
    marks: &mut Vec<bool>,
    name: Keyword,
) -> Result<(), AllocError>
    requires { length marks.old.items ≡ length names.old.items }
    ensures names { OnOk result (names.new.items ≡ with_names names.old.items (name ∷ [])) }
    ensures marks { OnOk result (marks.new.items ≡ mark_same names.old.items marks.old.items name
        ++ (if is_new names.old.items name then true ∷ [] else [])) }
{
    mark_same(names.as_slice(), marks.as_mut_slice(), &name);
    if names.len() < 30 && !is_taken(names.as_slice(), &name) {
        names.push(name)?;
        marks.push(true)?;
    }
    Ok(())
}

fn is_marked(mark: bool, name: &Keyword, word: &Keyword) -> bool
    ensures { result ≡ (mark || same_keyword name.now word.now) }
{
    mark || name.same(word)
}

// Marks the names that are the same as a word.
fn mark_same(names: &[Keyword], marks: &mut [bool], word: &Keyword)
    requires { length marks.old ≡ length names.now }
    ensures { marks.new ≡ mark_same names.now marks.old word.now }
{
    for (at, mark) in marks.iter_mut().enumerate() {
        *mark = is_marked(*mark, &names[at], word);
    }
}

// The number whose bits are these, from bit 0 on.
fn number_of_bits(bits: &[bool]) -> u32
    requires { length bits.now ≤ 30 }
    ensures { result ≡ number_of_bits bits.now }
{
    let mut number: u32 = 0;
    for behind in 0..bits.len() {
        number = 2 * number + u32::from(bits[bits.len() - 1 - behind]);
    }
    number
}
