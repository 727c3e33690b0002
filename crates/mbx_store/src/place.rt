// Where records stand in their file.
ghost use Rattle.std.specs.Prelude.{◌≡◌, ◌≤◌, ◌++◌, ◌^◌, get_or, IfOk, OnOk};
ghost use Rattle.std.specs.List.{AllByRecursion};
ghost use Rattle.mail_types.specs.Flags.{has_bit};
ghost use Rattle.mbx_store.specs.Places.{IsNear, start_of, starts_of};

use std::alloc::{AllocError, Global};
use std::marker::Model;

/// Where a record stands: the place of its head, and how long its head and its text are; and the bits of its head that a change keeps.
#[derive(Clone, Copy, Debug, PartialEq, Eq)]
pub struct MbxPlace {
    pub at: u64,
    pub head: u64,
    pub size: u64,
    pub words: u32,
    pub bits: u16,
}

/// Whether a record with these flag bits is no message.
pub(crate) fn is_marked(bits: u16) -> bool
    ensures { result ≡ has_bit 32768 bits }
{
    bits / 0x8000 % 2 == 1
}

/// The places of the records of a file, and where the text of each message begins.
#[derive(Debug, Drop)]
pub struct MbxLayout {
    places: Vec<MbxPlace>,
    starts: Vec<u64>,
}

impl Model for MbxLayout {
    ghost use Rattle.std.specs.Prelude.{List};
    ghost use Rattle.mbx_store.specs.declared.place.MbxPlace.{MbxPlace};
    ghost use Rattle.mbx_store.specs.Places.{IsLayout};

    ghost Value = { List MbxPlace };

    ghost view = { λ l. l.places.items };

    ghost invariant = { λ l. IsLayout l.places.items l.starts.items };
}

impl MbxLayout {
    pub(crate) fn of(alloc: Global, places: Vec<MbxPlace>) -> Result<MbxLayout, AllocError>
        requires { AllByRecursion IsNear places.items }
        ensures { IfOk result (λ l. l ≡ places.items) }
    {
        let starts = text_starts(alloc, places.as_slice())?;
        Ok(MbxLayout { places, starts })
    }

    pub(crate) fn places(&self) -> &[MbxPlace]
        ensures are { result.now ≡ self.now }
        ensures near { AllByRecursion IsNear self.now }
    {
        self.places.as_slice()
    }

    /// Where the text of a message begins, 0 where there is none.
    pub(crate) fn start_at(&self, place: usize) -> u64
        ensures is { result ≡ get_or (starts_of self.now) place 0 }
        ensures near { result ≤ 2 ^ 63 }
    {
        if place < self.starts.len() {
            self.starts[place]
        } else {
            0
        }
    }
}

// Where a text begins, if a record is a message.
fn put_start(starts: &mut Vec<u64>, place: &MbxPlace) -> Result<(), AllocError>
    requires { IsNear place.now }
    ensures { OnOk result (starts.new.items ≡ starts.old.items ++ start_of place.now) }
{
    if !is_marked(place.bits) {
        starts.push(place.at + place.head)?;
    }
    Ok(())
}

// Where the text of each message begins.
fn text_starts(alloc: Global, places: &[MbxPlace]) -> Result<Vec<u64>, AllocError>
    requires { AllByRecursion IsNear places.now }
    ensures { IfOk result (λ v. v.items ≡ starts_of places.now) }
{
    let mut starts = Vec::new(alloc);
    for place in places {
        put_start(&mut starts, place)?;
    }
    Ok(starts)
}
