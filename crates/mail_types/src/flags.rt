// The flags of a message (RFC 3501, section 2.3.2), and the bits that stand for them in files.
ghost use Rattle.std.specs.Prelude.{◌≡◌, ◌≢◌, ◌<◌};
ghost use Rattle.mail_types.specs.Flags.{no_flags, flag_bits, flags_of_bits, has_bit, flags_in_both, flags_in_either, flags_in_first};

/// The flags of a message. `old` says that a session has been told of the message.
#[derive(Clone, Copy, Debug, PartialEq, Eq)]
pub struct Flags {
    pub seen: bool,
    pub answered: bool,
    pub flagged: bool,
    pub deleted: bool,
    pub draft: bool,
    pub old: bool,
}

fn has_bit(bits: u16, bit: u16) -> bool
    requires { bit ≢ 0 }
    ensures { result ≡ has_bit bit bits }
{
    bits / bit % 2 == 1
}

impl Flags {
    pub fn none() -> Flags
        ensures { result ≡ no_flags }
    {
        Flags {
            seen: false,
            answered: false,
            flagged: false,
            deleted: false,
            draft: false,
            old: false,
        }
    }

    /// The bits that stand for the flags in mbx, mtx, tenex and mix files.
    pub fn bits(self) -> u16
        ensures value { result ≡ flag_bits self }
        ensures read { flags_of_bits result ≡ self }
        ensures small { result < 64 }
    {
        u16::from(self.seen)
            + 2 * u16::from(self.deleted)
            + 4 * u16::from(self.flagged)
            + 8 * u16::from(self.answered)
            + 16 * u16::from(self.old)
            + 32 * u16::from(self.draft)
    }

    /// The flags that bits stand for. Other bits are disregarded.
    pub fn of_bits(bits: u16) -> Flags
        ensures { result ≡ flags_of_bits bits }
    {
        Flags {
            seen: has_bit(bits, 1),
            deleted: has_bit(bits, 2),
            flagged: has_bit(bits, 4),
            answered: has_bit(bits, 8),
            old: has_bit(bits, 16),
            draft: has_bit(bits, 32),
        }
    }

    /// The flags that both have.
    pub fn and(self, other: Flags) -> Flags
        ensures { result ≡ flags_in_both self other }
    {
        Flags {
            seen: self.seen && other.seen,
            answered: self.answered && other.answered,
            flagged: self.flagged && other.flagged,
            deleted: self.deleted && other.deleted,
            draft: self.draft && other.draft,
            old: self.old && other.old,
        }
    }

    /// The flags that one of them has.
    pub fn or(self, other: Flags) -> Flags
        ensures { result ≡ flags_in_either self other }
    {
        Flags {
            seen: self.seen || other.seen,
            answered: self.answered || other.answered,
            flagged: self.flagged || other.flagged,
            deleted: self.deleted || other.deleted,
            draft: self.draft || other.draft,
            old: self.old || other.old,
        }
    }

    /// The flags that the other doesn't have.
    pub fn without(self, other: Flags) -> Flags
        ensures { result ≡ flags_in_first self other }
    {
        Flags {
            seen: self.seen && !other.seen,
            answered: self.answered && !other.answered,
            flagged: self.flagged && !other.flagged,
            deleted: self.deleted && !other.deleted,
            draft: self.draft && !other.draft,
            old: self.old && !other.old,
        }
    }
}
