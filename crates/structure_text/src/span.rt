// Where a header stands.
ghost use Rattle.std.specs.Prelude.{◌≡◌, slice_range};

use head_fields::Span;

/// The bytes of a span, as far as they stand in the text.
pub fn slice_of(text: &[u8], span: Span) -> &[u8]
    ensures { result.now ≡ slice_range text.now span.from span.to }
{
    let from = span.from.min(text.len());
    let to = span.to.min(text.len()).max(from);
    &text[from..to]
}
