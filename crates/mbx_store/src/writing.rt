// The file after a change is written into memory.
ghost use Rattle.std.specs.Prelude.{◌≡◌, ◌≤◌, ◌<◌, ◌+◌, ◌^◌, ◌++◌, List, ℕ, take, drop, map, length, IfOk, OnOk, IsErr, IsErrOf};
ghost use Rattle.std.specs.List.{AllByRecursion};
ghost use Rattle.file_model.specs.Disk.{seen};
ghost use Rattle.file_model.specs.Histories.{Now};
ghost use Rattle.store_trait.specs.Answers.{Breaks, StoreCause};
ghost use Rattle.file_store.specs.Places.{read_byte, HasSpan};
ghost use Rattle.file_store.specs.Scans.{OfFile};
ghost use Rattle.mbx_form.specs.Header.{header_text};
ghost use Rattle.mbx_store.specs.Bytes.{span_of, SpanEndsBy, piece_bytes, pieces_bytes, head_bytes, added_bytes, places_in};
ghost use Rattle.mbx_store.specs.Places.{IsNear};
ghost use Rattle.mbx_store.specs.Plans.{HasRoom};

use crate::place::MbxPlace;
use crate::plan::{Piece, Plan};
use file_model::Files;
use file_store::read_text;
use mail_fields::Keyword;
use mail_types::NewMessage;
use mbx_form::{put_head, put_header};
use std::alloc::{AllocError, Global};
use store_index::Told;
use store_trait::StoreFault;

// Fills a part with bytes of a file, which has so many from a place on.
fn read_bytes<F: Files>(
    files: &mut F,
    path: &str,
    from: u64,
    part: &mut [u8],
) -> Result<(), StoreFault>
    requires stands { Now (F.history files.old) (λ w. HasSpan path.now (from + length part.old) (seen w.disk)) }
    ensures bytes { OnOk result (OfFile (F.history files.old) path.now (λ bytes. part.new ≡ take (length part.old) (drop from bytes))) }
    ensures answer { IsErr result → Breaks result }
    ensures history { F.history files.new ≡ F.history files.old }
    ensures cause { StoreCause (F.faults files.old) (F.faults files.new) result }
{
    match files.read_at(path, from, part) {
        Ok(_) => Ok(()),
        Err(_) => Err(StoreFault::Failed),
    }
}

// Appends so many bytes, which are to be filled.
fn grow(out: &mut Vec<u8>, count: u64) -> Result<(), StoreFault>
    requires { count ≤ 2 ^ 63 }
    ensures front { OnOk result (take (length out.old.items) out.new.items ≡ out.old.items) }
    ensures long { OnOk result (length out.new.items ≡ length out.old.items + count) }
    ensures memory { IsErr result → IsErrOf result StoreFault.Memory }
{
    match out.resize(out.len() + count as usize, 0) {
        Ok(()) => Ok(()),
        Err(_) => Err(StoreFault::Memory),
    }
}

// Appends bytes of a file.
fn put_bytes<F: Files>(
    files: &mut F,
    path: &str,
    out: &mut Vec<u8>,
    from: u64,
    count: u64,
) -> Result<(), StoreFault>
    requires near { from + count ≤ 2 ^ 63 }
    requires stands { Now (F.history files.old) (λ w. HasSpan path.now (from + count) (seen w.disk)) }
    ensures bytes { OnOk result (OfFile (F.history files.old) path.now (λ bytes. out.new.items ≡ out.old.items ++ take count (drop from bytes))) }
    ensures answer { IsErr result → Breaks result }
    ensures history { F.history files.new ≡ F.history files.old }
    ensures cause { StoreCause (F.faults files.old) (F.faults files.new) result }
{
    let start = out.len();
    grow(out, count)?;
    read_bytes(files, path, from, &mut out[start..])
}

// Appends a text of a file.
fn put_text<F: Files>(
    files: &mut F,
    path: &str,
    out: &mut Vec<u8>,
    from: u64,
    size: u64,
) -> Result<(), StoreFault>
    requires near { from + size ≤ 2 ^ 63 }
    requires stands { Now (F.history files.old) (λ w. HasSpan path.now (from + size) (seen w.disk)) }
    ensures bytes { OnOk result (OfFile (F.history files.old) path.now (λ bytes. out.new.items ≡ out.old.items ++ map read_byte (take size (drop from bytes)))) }
    ensures answer { IsErr result → Breaks result }
    ensures history { F.history files.new ≡ F.history files.old }
    ensures cause { StoreCause (F.faults files.old) (F.faults files.new) result }
{
    let start = out.len();
    grow(out, size)?;
    match read_text(files, path, from, size as usize, 0, &mut out[start..]) {
        Ok(_) => Ok(()),
        Err(fault) => Err(fault),
    }
}

// Appends a record that is left.
fn put_piece<F: Files>(
    files: &mut F,
    path: &str,
    out: &mut Vec<u8>,
    piece: &Piece,
) -> Result<(), StoreFault>
    requires near { SpanEndsBy (2 ^ 63) piece.now }
    requires stands { Now (F.history files.old) (λ w. HasSpan path.now (piece.now.from + span_of piece.now) (seen w.disk)) }
    ensures bytes { OnOk result (OfFile (F.history files.old) path.now (λ bytes. out.new.items ≡ out.old.items ++ piece_bytes bytes piece.now)) }
    ensures answer { IsErr result → Breaks result }
    ensures history { F.history files.new ≡ F.history files.old }
    ensures cause { StoreCause (F.faults files.old) (F.faults files.new) result }
{
    let Some(head) = &piece.head else {
        return put_bytes(
            files,
            path,
            out,
            piece.from,
            piece.place.head + piece.place.size,
        );
    };
    match put_head(out, head) {
        Ok(()) => put_text(files, path, out, piece.from, piece.place.size),
        Err(_) => Err(StoreFault::Memory),
    }
}

// Appends all records that are left.
fn put_pieces<F: Files>(
    files: &mut F,
    path: &str,
    out: &mut Vec<u8>,
    pieces: &[Piece],
) -> Result<(), StoreFault>
    requires near { AllByRecursion (SpanEndsBy (2 ^ 63)) pieces.now }
    requires stands { Now (F.history files.old) (λ w. AllByRecursion (λ q. HasSpan path.now (q.from + span_of q) (seen w.disk)) pieces.now) }
    ensures bytes { OnOk result (OfFile (F.history files.old) path.now (λ bytes. out.new.items ≡ out.old.items ++ pieces_bytes bytes pieces.now)) }
    ensures answer { IsErr result → Breaks result }
    ensures history { F.history files.new ≡ F.history files.old }
    ensures cause { StoreCause (F.faults files.old) (F.faults files.new) result }
{
    for piece in pieces {
        put_piece(files, path, out, piece)?;
    }
    Ok(())
}

// Appends a new message.
fn put_message(out: &mut Vec<u8>, piece: &Piece, message: &NewMessage) -> Result<(), AllocError>
    ensures { OnOk result (out.new.items ≡ out.old.items ++ (head_bytes piece.now.head ++ message.now.text)) }
{
    if let Some(head) = &piece.head {
        put_head(out, head)?;
    }
    out.extend_from_slice(message.text.as_slice())?;
    Ok(())
}

// Appends all new messages.
fn put_messages(out: &mut Vec<u8>, pieces: &[Piece], new: &[NewMessage]) -> Result<(), AllocError>
    requires { length pieces.now ≡ length new.now }
    ensures { OnOk result (out.new.items ≡ out.old.items ++ added_bytes pieces.now new.now) }
{
    for (place, message) in new.iter().enumerate() {
        put_message(out, &pieces[place], message)?;
    }
    Ok(())
}

// The header, with room for the whole file.
fn start_file(
    alloc: Global,
    next: &Told,
    words: &[Keyword],
    long: u64,
) -> Result<Vec<u8>, AllocError>
    requires few { length words.now ≤ 30 }
    ensures { IfOk result (λ v. v.items ≡ header_text (record { validity = next.now.validity; last = next.now.last; words = words.now })) }
{
    let mut out = put_header(alloc, next.validity(), next.last(), words)?;
    out.reserve_exact((long as usize).saturating_sub(2048))?;
    Ok(out)
}

/// The bytes of the file.
pub(crate) fn write_plan<F: Files>(
    alloc: Global,
    files: &mut F,
    path: &str,
    next: &Told,
    words: &[Keyword],
    plan: &Plan,
    new: &[NewMessage],
) -> Result<Vec<u8>, StoreFault>
    requires few { length words.now ≤ 30 }
    requires near { AllByRecursion (SpanEndsBy (2 ^ 63)) plan.now.left.items }
    requires count { length plan.now.added.items ≡ length new.now }
    requires stands { Now (F.history files.old) (λ w. AllByRecursion (λ q. HasSpan path.now (q.from + span_of q) (seen w.disk)) plan.now.left.items) }
    ensures bytes { IfOk result (λ v. OfFile (F.history files.old) path.now (λ bytes. v.items ≡ (header_text (record { validity = next.now.validity; last = next.now.last; words = words.now }) ++ pieces_bytes bytes plan.now.left.items) ++ added_bytes plan.now.added.items new.now)) }
    ensures answer { IsErr result → Breaks result }
    ensures history { F.history files.new ≡ F.history files.old }
    ensures cause { StoreCause (F.faults files.old) (F.faults files.new) result }
{
    let mut out = match start_file(alloc, next, words, plan.long) {
        Ok(out) => out,
        Err(_) => return Err(StoreFault::Memory),
    };
    put_pieces(files, path, &mut out, plan.left.as_slice())?;
    match put_messages(&mut out, plan.added.as_slice(), new) {
        Ok(()) => Ok(out),
        Err(_) => Err(StoreFault::Memory),
    }
}

// Appends the places of records.
fn put_places(places: &mut Vec<MbxPlace>, pieces: &[Piece]) -> Result<(), AllocError>
    ensures { OnOk result (places.new.items ≡ places.old.items ++ places_in pieces.now) }
{
    for piece in pieces {
        places.push(piece.place)?;
    }
    Ok(())
}

/// The places of its records.
pub(crate) fn places_of(alloc: Global, plan: &Plan) -> Result<Vec<MbxPlace>, AllocError>
    ensures { IfOk result (λ v. v.items ≡ places_in plan.now.left.items ++ places_in plan.now.added.items) }
{
    let mut places = Vec::new(alloc);
    put_places(&mut places, plan.left.as_slice())?;
    put_places(&mut places, plan.added.as_slice())?;
    Ok(places)
}
