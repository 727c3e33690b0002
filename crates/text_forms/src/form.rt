// The whole forms, one step after the other.
ghost use Rattle.std.specs.Prelude.{◌≡◌, IfOk};
ghost use Rattle.text_forms.specs.Forms.{headed_form, lines_form, unix_form, mmdf_form};

use crate::header::end_own_header;
use crate::keep_lines;
use crate::line_end::keep_whole_lines;
use crate::quote::{quote_own_from, quote_own_mmdf};
use crate::reserved::drop_own_reserved;
use std::alloc::{AllocError, Global};

/// The text as a driver keeps it that changes nothing but line ends.
#[tactic(auto, using(crate::proofs::Idempotent::lines_form_twice))]
pub fn lines_form(alloc: Global, text: &[u8]) -> Result<Vec<u8>, AllocError>
    ensures value { IfOk result (λ v. v.items ≡ lines_form text.now) }
    ensures twice { IfOk result (λ v. lines_form v.items ≡ v.items) }
{
    keep_lines(alloc, text)
}

// All steps of the unix and the mmdf form but the quoting. Each lets go of the text before it, or gives that back.
fn headed_form(alloc: Global, text: &[u8]) -> Result<Vec<u8>, AllocError>
    ensures { IfOk result (λ v. v.items ≡ headed_form text.now) }
{
    let kept = keep_whole_lines(alloc, text)?;
    let dropped = drop_own_reserved(alloc, kept)?;
    end_own_header(dropped)
}

/// The text as a unix file keeps it.
#[tactic(auto, using(crate::proofs::Idempotent::unix_form_twice))]
pub fn unix_form(alloc: Global, text: &[u8]) -> Result<Vec<u8>, AllocError>
    ensures value { IfOk result (λ v. v.items ≡ unix_form text.now) }
    ensures twice { IfOk result (λ v. unix_form v.items ≡ v.items) }
{
    let headed = headed_form(alloc, text)?;
    quote_own_from(alloc, headed)
}

/// The text as an mmdf file keeps it.
#[tactic(auto, using(crate::proofs::Idempotent::mmdf_form_twice))]
pub fn mmdf_form(alloc: Global, text: &[u8]) -> Result<Vec<u8>, AllocError>
    ensures value { IfOk result (λ v. v.items ≡ mmdf_form text.now) }
    ensures twice { IfOk result (λ v. mmdf_form v.items ≡ v.items) }
{
    let headed = headed_form(alloc, text)?;
    quote_own_mmdf(alloc, headed)
}
