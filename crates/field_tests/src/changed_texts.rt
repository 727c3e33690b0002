// Texts with one byte fewer, one more or one exchanged.
use std::alloc::{AllocError, Global};

// Without the byte at a place.
pub fn without(alloc: Global, text: &[u8], at: usize) -> Result<Vec<u8>, AllocError> {
    let mut out = Vec::new(alloc);
    for (place, byte) in text.iter().enumerate() {
        if place != at {
            out.push(*byte)?;
        }
    }
    Ok(out)
}

// With a byte before that at a place, or at the end.
pub fn with(alloc: Global, text: &[u8], at: usize, more: u8) -> Result<Vec<u8>, AllocError> {
    let mut out = Vec::new(alloc);
    for (place, byte) in text.iter().enumerate() {
        if place == at {
            out.push(more)?;
        }
        out.push(*byte)?;
    }
    if at == text.len() {
        out.push(more)?;
    }
    Ok(out)
}

// With another byte at a place.
pub fn exchanged(alloc: Global, text: &[u8], at: usize, other: u8) -> Result<Vec<u8>, AllocError> {
    let mut out = Vec::new(alloc);
    for (place, byte) in text.iter().enumerate() {
        out.push(if place == at { other } else { *byte })?;
    }
    Ok(out)
}
