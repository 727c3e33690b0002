// The bits of keywords and flags, as octal digits.
ghost use Rattle.std.specs.Prelude.{◌≡◌, ◌<◌, ◌^◌, ◌++◌, IfSome};
ghost use Rattle.mail_fields.specs.Numbers.{digits_in};
ghost use Rattle.octal_head.specs.Heads.{marks_of};

use mail_fields::{put_octal, read_octal};

// The bits that 12 digits write, ten for the keywords and two for the flags.
#[tactic(auto, unfolding(crate::specs::Heads::marks_of))]
pub(crate) fn read_marks(digits: &[u8]) -> Option<(u32, u8)>
    ensures value { result ≡ marks_of digits.now }
    ensures words { IfSome result (λ marks. marks.0 < 2 ^ 30) }
    ensures bits { IfSome result (λ marks. marks.1 < 64) }
{
    if digits.len() != 12 {
        return None;
    }
    let words = read_octal(digits, 10)?;
    let bits = read_octal(&digits[10..], 2)?;
    Some((words as u32, bits as u8))
}

// The digits that write these bits.
pub(crate) fn mark_digits(words: u32, bits: u8) -> [u8; 12]
    requires words { words < 2 ^ 30 }
    requires bits { bits < 64 }
    ensures { result ≡ digits_in 8 10 words ++ digits_in 8 2 bits }
{
    let mut digits = [0; 12];
    put_octal(&mut digits, 0, 10, u64::from(words));
    put_octal(&mut digits, 10, 2, u64::from(bits));
    digits
}
