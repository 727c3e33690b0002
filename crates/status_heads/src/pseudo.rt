// The message that holds the base of a mailbox.
ghost use Rattle.std.specs.Prelude.{◌≡◌, ◌≢◌, ◌<◌, ◌≤◌, ◌%◌, ◌^◌, ◌∷◌, ◌++◌, pos, Some, true, codes, length, IfOk, OnOk};
ghost use Rattle.std.specs.Char.{digit_char};
ghost use Rattle.std.specs.List.{list_all};
ghost use Rattle.text_lines.specs.Lines.{lines_of};
ghost use Rattle.mail_fields.specs.DelimiterLine.{delimiter_stamp};
ghost use Rattle.mail_fields.specs.Names.{are_distinct};
ghost use Rattle.status_heads.specs.Bases.{base_of};
ghost use Rattle.mail_fields.specs.Keyword.{is_keyword};
ghost use Rattle.status_heads.specs.Numbers.{greatest_uid};
ghost use Rattle.status_heads.specs.PseudoTexts.{base_text, pseudo_line, pseudo_message, pseudo_text, ten_digits};

use crate::base::Base;
use crate::head_text::put_spaced;
use std::alloc::{AllocError, Global};

const DELIMITER: &[u8] = b"From MAILER-DAEMON Thu Jan  1 00:00:00 1970\n";

const HEADER: &[u8] =
    b"From: Mail System Internal Data <MAILER-DAEMON@localhost>\nSubject: DON'T DELETE THIS MESSAGE -- FOLDER INTERNAL DATA\nX-IMAP: ";

const REST: &[u8] =
    b"\nStatus: RO\n\nThis text is part of the internal format of your mail folder.\n";

/// The message that holds the base of a mailbox, which is the first of its file and no message of it.
///
/// It goes from the delimiter line to the line end of its one line of text, and LF ends each line.
#[tactic(auto, unfolding(crate::specs::PseudoTexts::pseudo_message))]
pub fn put_pseudo(alloc: Global, base: &Base) -> Result<Vec<u8>, AllocError>
    requires validity { base.now.validity ≢ 0 }
    requires last { base.now.last ≤ greatest_uid }
    requires few { length base.now.words ≤ 30 }
    requires distinct { are_distinct base.now.words ≡ true }
    ensures text { IfOk result (λ v. v.items ≡ pseudo_text base.now) }
    // its first line is a delimiter line, and behind that it is read again
    ensures first { IfOk result (λ v. lines_of v.items ≡ pseudo_line ∷ lines_of (pseudo_message base.now)) }
    ensures stamp { IfOk result (λ _. delimiter_stamp pseudo_line ≡ Some (record { day = pos 0; second = 0; zone_minutes = pos 0 })) }
    ensures read { IfOk result (λ _. base_of (pseudo_message base.now) (codes "X-IMAP") ≡ Some base.now) }
{
    let text = pseudo_bytes(alloc, base)?;
    Ok(text)
}

/// The same of any base, also of one that can't be read again.
#[tactic(auto, unfolding(crate::specs::PseudoTexts::pseudo_message))]
pub fn pseudo_bytes(alloc: Global, base: &Base) -> Result<Vec<u8>, AllocError>
    ensures text { IfOk result (λ v. v.items ≡ pseudo_text base.now) }
    ensures keywords { IfOk result (λ _. list_all is_keyword base.now.words ≡ true) }
    ensures fits { IfOk result (λ _. base.now.validity < 2 ^ 32) }
{
    let mut text = Vec::from_slice(alloc, DELIMITER)?;
    text.extend_from_slice(HEADER)?;
    put_base(&mut text, base)?;
    text.extend_from_slice(REST)?;
    Ok(text)
}

// Appends the value of the field that holds a base.
#[tactic(auto, unfolding(crate::specs::PseudoTexts::base_text))]
fn put_base(out: &mut Vec<u8>, base: &Base) -> Result<(), AllocError>
    ensures text { OnOk result (out.new.items ≡ out.old.items ++ base_text base.now) }
    ensures keywords { OnOk result (list_all is_keyword base.now.words ≡ true) }
    ensures fits { OnOk result (base.now.validity < 2 ^ 32) }
{
    out.extend_from_slice(&ten_digits(base.validity))?;
    out.extend_from_slice(b" ")?;
    out.extend_from_slice(&ten_digits(base.last))?;
    put_spaced(out, base.words.as_slice())
}

fn digit(number: u32) -> u8
    ensures { result ≡ digit_char (number % 10) }
{
    b'0' + (number % 10) as u8
}

// The ten decimal digits of a number, with zeros in front.
#[tactic(auto, unfolding(crate::specs::PseudoTexts::ten_digits))]
fn ten_digits(number: u32) -> [u8; 10]
    ensures text { result ≡ ten_digits number }
    ensures fits { number < 2 ^ 32 }
{
    let tens = number / 10;
    let hundreds = tens / 10;
    let thousands = hundreds / 10;
    let fourth = thousands / 10;
    let fifth = fourth / 10;
    let sixth = fifth / 10;
    let seventh = sixth / 10;
    let eighth = seventh / 10;
    let ninth = eighth / 10;
    [
        digit(ninth),
        digit(eighth),
        digit(seventh),
        digit(sixth),
        digit(fifth),
        digit(fourth),
        digit(thousands),
        digit(hundreds),
        digit(tens),
        digit(number),
    ]
}
