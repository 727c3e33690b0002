// What an open store tells.
ghost use Rattle.std.specs.Prelude.{◌≡◌};

use mail_fields::{Keyword, Keywords};
use std::marker::Model;
use store_trait::Info;

/// What an open store tells of its mailbox without reading a file.
#[derive(Debug, Drop)]
pub struct Told {
    validity: u32,
    highest: u32,
    names: Keywords,
    messages: Vec<Info>,
}

impl Model for Told {
    ghost use Rattle.store_index.specs.States.{ToldState};

    ghost Value = { ToldState };

    ghost view = { λ t. record { validity = t.validity; last = t.highest; words = t.names; infos = t.messages.items } };
}

impl Told {
    pub fn of(validity: u32, last: u32, words: Keywords, infos: Vec<Info>) -> Told
        ensures { result ≡ record { validity = validity; last = last; words = words; infos = infos.items } }
    {
        Told {
            validity,
            highest: last,
            names: words,
            messages: infos,
        }
    }

    pub fn validity(&self) -> u32
        ensures { result ≡ self.now.validity }
    {
        self.validity
    }

    pub fn last(&self) -> u32
        ensures { result ≡ self.now.last }
    {
        self.highest
    }

    pub fn words(&self) -> &[Keyword]
        ensures { result.now ≡ self.now.words }
    {
        self.names.as_slice()
    }

    pub fn infos(&self) -> &[Info]
        ensures { result.now ≡ self.now.infos }
    {
        self.messages.as_slice()
    }
}
