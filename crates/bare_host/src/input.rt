// The input, which comes in pieces.
ghost use Rattle.std.specs.Prelude.{◌≤◌, length};

use std::alloc::{AllocError, Global};

/// The bytes, how many of them were heard, and where the pieces end.
#[derive(Drop)]
pub(crate) struct Input {
    bytes: Vec<u8>,
    heard: usize,
    ends: Vec<usize>,
    next: usize,
}

impl Input {
    pub(crate) fn new(alloc: Global) -> Input {
        Input {
            bytes: Vec::new(alloc),
            heard: 0,
            ends: Vec::new(alloc),
            next: 0,
        }
    }

    /// Adds a piece. One without bytes would tell the end, so it is left out.
    pub(crate) fn add(&mut self, piece: &[u8]) -> Result<(), AllocError> {
        if piece.is_empty() {
            return Ok(());
        }
        self.bytes.extend_from_slice(piece)?;
        self.ends.push(self.bytes.len())?;
        Ok(())
    }

    /// Gives what is left of a piece, or as much of it as there is room for.
    pub(crate) fn give(&mut self, buf: &mut [u8]) -> usize
        ensures { result ≤ length buf.old }
    {
        let end = match self.ends.get(self.next) {
            Some(end) => *end,
            None => self.bytes.len(),
        };
        let left = self.bytes.get(self.heard..end).unwrap_or(&[]);
        let count = left.len().min(buf.len());
        buf[..count].copy_from_slice(&left[..count]);
        if count == left.len() {
            self.next = self.next.saturating_add(1);
        }
        self.heard = self.heard.saturating_add(count);
        count
    }
}
