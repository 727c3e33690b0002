// The value of a field that is looked up by its name.
ghost use Rattle.std.specs.Prelude.{◌≡◌, All, IfOk, length, map};
ghost use Rattle.std.specs.Str.{str_eq_ignore_ascii_case};
ghost use Rattle.head_fields.specs.Fields.{StandsWithin, reading_in};
ghost use Rattle.head_fields.specs.Folding.{unfolded};
ghost use Rattle.status_heads.specs.Fields.{value_named};

use head_fields::{Field, unfold};
use std::alloc::{AllocError, Global};

// The value of the first field of a name, in any case, on one line; no byte where no field has it.
pub(crate) fn value_named(
    alloc: Global,
    text: &[u8],
    fields: &[Field],
    name: &[u8],
) -> Result<Vec<u8>, AllocError>
    requires { All (StandsWithin (length text.now)) fields.now }
    ensures { IfOk result (λ v. v.items ≡ value_named name.now (map (reading_in text.now) fields.now)) }
{
    for field in fields {
        if is_named(text, field, name) {
            return read_value(alloc, text, field);
        }
    }
    Ok(Vec::new(alloc))
}

fn is_named(text: &[u8], field: &Field, name: &[u8]) -> bool
    requires { StandsWithin (length text.now) field.now }
    ensures { result ≡ str_eq_ignore_ascii_case (reading_in text.now field.now).0 name.now }
{
    text[field.name.from..field.name.to].eq_ignore_ascii_case(name)
}

fn read_value(alloc: Global, text: &[u8], field: &Field) -> Result<Vec<u8>, AllocError>
    requires { StandsWithin (length text.now) field.now }
    ensures { IfOk result (λ v. v.items ≡ unfolded (reading_in text.now field.now).1) }
{
    unfold(alloc, &text[field.value.from..field.value.to])
}
