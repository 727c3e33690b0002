// The input, given in pieces.
ghost use Rattle.std.specs.Prelude.{◌≡◌, ◌≤◌, length, take, drop};
ghost use Rattle.mem_host.specs.Coming.{piece_length, after_turn};

use std::marker::Model;

#[derive(Drop)]
pub(crate) struct Input {
    bytes: Vec<u8>,
    heard: usize,
    cuts: Vec<usize>,
    next_cut: usize,
}

impl Model for Input {
    ghost use Rattle.mem_host.specs.Coming.{Coming};

    ghost Value = { Coming };

    ghost use Rattle.mem_host.specs.Input.{coming_of, IsWithin};

    ghost view = { coming_of };

    ghost invariant = { IsWithin };
}

// A cut of no bytes counts as one byte, since none would tell the end.
fn length_of_piece(room: usize, cuts: &[usize], left: usize) -> usize
    ensures { result ≡ piece_length room cuts.now left }
{
    let fits = room.min(left);
    match cuts.first() {
        Some(cut) => fits.min((*cut).max(1)),
        None => fits,
    }
}

impl Input {
    pub(crate) fn new(bytes: Vec<u8>, cuts: Vec<usize>) -> Input
        ensures bytes { result.bytes ≡ bytes.items }
        ensures cuts { result.cuts ≡ cuts.items }
    {
        Input {
            bytes,
            heard: 0,
            cuts,
            next_cut: 0,
        }
    }

    // A turn takes its cut.
    fn skip(&mut self)
        ensures { self.new ≡ after_turn 0 self.old }
    {
        if self.next_cut < self.cuts.len() {
            self.next_cut += 1;
        }
    }

    /// Gives the next bytes, as many as the room and the cut allow.
    pub(crate) fn give(&mut self, buf: &mut [u8]) -> usize
        ensures count { result ≡ piece_length (length buf.old) self.old.cuts (length self.old.bytes) }
        ensures within { result ≤ length buf.old }
        ensures gives { take result buf.new ≡ take result self.old.bytes }
        ensures rest { drop result buf.new ≡ drop result buf.old }
        ensures left { self.new ≡ after_turn result self.old }
    {
        let left = &self.bytes[self.heard..];
        let count = length_of_piece(buf.len(), &self.cuts[self.next_cut..], left.len());
        buf[..count].copy_from_slice(&left[..count]);
        self.heard += count;
        self.skip();
        count
    }
}
