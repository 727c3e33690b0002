// A message as a mailbox has it, as it is given to one, and a change of its flags.
ghost use Rattle.std.specs.Prelude.{◌≡◌, IfOk};

use crate::flags::Flags;
use mail_fields::{Bytes, Stamp};
use std::alloc::{AllocError, Global};
use std::marker::Model;

/// A message of a mailbox. Bit i of `words` is keyword number i; `number` is the modification number, 0 where there is none.
#[derive(Debug, Drop)]
pub struct Record {
    pub uid: u32,
    pub text: Bytes,
    pub stamp: Stamp,
    pub flags: Flags,
    pub words: u32,
    pub number: u32,
}

impl Record {
    /// An equal message.
    pub fn copy(&self, alloc: Global) -> Result<Record, AllocError>
        ensures { IfOk result (λ r. r ≡ self.now) }
    {
        let text = Bytes::of(alloc, self.text.as_slice())?;
        Ok(Record {
            uid: self.uid,
            text,
            stamp: self.stamp,
            flags: self.flags,
            words: self.words,
            number: self.number,
        })
    }
}

/// A message that is to be appended.
#[derive(Debug, Drop)]
pub struct NewMessage {
    pub text: Bytes,
    pub stamp: Stamp,
    pub flags: Flags,
    pub words: u32,
}

/// The flags and keywords that the message at a place, counted from 0, is to have.
#[derive(Clone, Copy, Debug, PartialEq, Eq)]
pub struct FlagChange {
    pub place: usize,
    pub flags: Flags,
    pub words: u32,
}

/// The messages of a mailbox, by rising UID.
#[derive(Debug, Drop)]
pub struct Records {
    items: Vec<Record>,
}

impl Model for Records {
    ghost use Rattle.std.specs.Prelude.{List};
    ghost use Rattle.mail_types.specs.declared.message.Record.{Record};

    ghost Value = { List Record };

    ghost view = { λ b. b.items.items };
}

impl Records {
    pub fn of(items: Vec<Record>) -> Records
        ensures { result ≡ items.items }
    {
        Records { items }
    }

    pub fn as_slice(&self) -> &[Record]
        ensures { result.now ≡ self.now }
    {
        self.items.as_slice()
    }

    pub fn into_vec(self) -> Vec<Record>
        ensures { result.items ≡ self }
    {
        let Records { items } = self;
        items
    }
}

/// Messages that are to be appended.
#[derive(Debug, Drop)]
pub struct NewMessages {
    items: Vec<NewMessage>,
}

impl Model for NewMessages {
    ghost use Rattle.std.specs.Prelude.{List};
    ghost use Rattle.mail_types.specs.declared.message.NewMessage.{NewMessage};

    ghost Value = { List NewMessage };

    ghost view = { λ b. b.items.items };
}

impl NewMessages {
    pub fn of(items: Vec<NewMessage>) -> NewMessages
        ensures { result ≡ items.items }
    {
        NewMessages { items }
    }

    pub fn as_slice(&self) -> &[NewMessage]
        ensures { result.now ≡ self.now }
    {
        self.items.as_slice()
    }

    pub fn into_vec(self) -> Vec<NewMessage>
        ensures { result.items ≡ self }
    {
        let NewMessages { items } = self;
        items
    }
}

/// Changes of flags, by rising place.
#[derive(Debug, Drop)]
pub struct FlagChanges {
    items: Vec<FlagChange>,
}

impl Model for FlagChanges {
    ghost use Rattle.std.specs.Prelude.{List};
    ghost use Rattle.mail_types.specs.declared.message.FlagChange.{FlagChange};

    ghost Value = { List FlagChange };

    ghost view = { λ b. b.items.items };
}

impl FlagChanges {
    pub fn of(items: Vec<FlagChange>) -> FlagChanges
        ensures { result ≡ items.items }
    {
        FlagChanges { items }
    }

    pub fn as_slice(&self) -> &[FlagChange]
        ensures { result.now ≡ self.now }
    {
        self.items.as_slice()
    }

    pub fn into_vec(self) -> Vec<FlagChange>
        ensures { result.items ≡ self }
    {
        let FlagChanges { items } = self;
        items
    }
}
