// Bytes and numbers in public records.
ghost use Rattle.std.specs.Prelude.{◌≡◌, List, ℕ, length, slice_index, IfOk};

use std::alloc::{AllocError, Global};
use std::marker::Model;

/// A list of bytes.
#[derive(Debug, Drop)]
pub struct Bytes {
    bytes: Vec<u8>,
}

impl Model for Bytes {
    ghost Value = { List ℕ };

    ghost view = { λ b. b.bytes.items };
}

impl Bytes {
    pub fn of(alloc: Global, bytes: &[u8]) -> Result<Bytes, AllocError>
        ensures { IfOk result (λ b. b ≡ bytes.now) }
    {
        let bytes = Vec::from_slice(alloc, bytes)?;
        Ok(Bytes { bytes })
    }

    /// Takes the bytes over, without a copy.
    pub fn from_vec(bytes: Vec<u8>) -> Bytes
        ensures { result ≡ bytes.items }
    {
        Bytes { bytes }
    }

    pub fn as_slice(&self) -> &[u8]
        ensures { result.now ≡ self.now }
    {
        self.bytes.as_slice()
    }
}

/// A list of places in a mailbox, from 0.
#[derive(Debug, Drop)]
pub struct Places {
    items: Vec<usize>,
}

impl Model for Places {
    ghost Value = { List ℕ };

    ghost view = { λ b. b.items.items };
}

impl Places {
    pub fn of(items: Vec<usize>) -> Places
        ensures { result ≡ items.items }
    {
        Places { items }
    }

    pub fn as_slice(&self) -> &[usize]
        ensures { result.now ≡ self.now }
    {
        self.items.as_slice()
    }

    pub fn into_vec(self) -> Vec<usize>
        ensures { result.items ≡ self }
    {
        let Places { items } = self;
        items
    }
}

/// A list of numbers, such as UIDs.
#[derive(Debug, Drop)]
pub struct Numbers {
    items: Vec<u32>,
}

impl Model for Numbers {
    ghost Value = { List ℕ };

    ghost view = { λ b. b.items.items };
}

impl Numbers {
    pub fn of(items: Vec<u32>) -> Numbers
        ensures { result ≡ items.items }
    {
        Numbers { items }
    }

    pub fn as_slice(&self) -> &[u32]
        ensures { result.now ≡ self.now }
    {
        self.items.as_slice()
    }

    pub fn into_vec(self) -> Vec<u32>
        ensures { result.items ≡ self }
    {
        let Numbers { items } = self;
        items
    }
}

/// A list of texts.
#[derive(Debug, Drop)]
pub struct ByteStrings {
    items: Vec<Bytes>,
}

impl Model for ByteStrings {
    ghost Value = { List (List ℕ) };

    ghost view = { λ b. b.items.items };
}

impl ByteStrings {
    pub fn of(items: Vec<Bytes>) -> ByteStrings
        ensures { result ≡ items.items }
    {
        ByteStrings { items }
    }

    pub fn as_slice(&self) -> &[Bytes]
        ensures { result.now ≡ self.now }
    {
        self.items.as_slice()
    }

    pub fn into_vec(self) -> Vec<Bytes>
        ensures { result.items ≡ self }
    {
        let ByteStrings { items } = self;
        items
    }
}

/// The parameters of a field, each a name and its value (RFC 2045, section 5.1).
#[derive(Debug, Drop)]
pub struct Parameters {
    items: Vec<(Bytes, Bytes)>,
}

impl Model for Parameters {
    ghost Value = { List (List ℕ × List ℕ) };

    ghost view = { λ b. b.items.items };
}

impl Parameters {
    pub fn of(items: Vec<(Bytes, Bytes)>) -> Parameters
        ensures { result ≡ items.items }
    {
        Parameters { items }
    }

    pub fn as_slice(&self) -> &[(Bytes, Bytes)]
        ensures { result.now ≡ self.now }
    {
        self.items.as_slice()
    }

    pub fn into_vec(self) -> Vec<(Bytes, Bytes)>
        ensures { result.items ≡ self }
    {
        let Parameters { items } = self;
        items
    }
}
