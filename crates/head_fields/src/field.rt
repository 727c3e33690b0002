// A header field, by where it stands.
ghost use Rattle.std.specs.Prelude.{◌≡◌};

use crate::span::Span;
use std::marker::Model;

/// Where a field's name and its value stand; the line end behind the value belongs to neither.
#[derive(Clone, Copy, Debug, PartialEq, Eq)]
pub struct Field {
    pub name: Span,
    pub value: Span,
}

/// A list of fields.
#[derive(Debug, Drop)]
pub struct Fields {
    items: Vec<Field>,
}

impl Model for Fields {
    ghost use Rattle.std.specs.Prelude.{List};
    ghost use Rattle.head_fields.specs.declared.field.Field.{Field};

    ghost Value = { List Field };

    ghost view = { λ f. f.items.items };
}

impl Fields {
    pub fn of(items: Vec<Field>) -> Fields
        ensures { result ≡ items.items }
    {
        Fields { items }
    }

    pub fn as_slice(&self) -> &[Field]
        ensures { result.now ≡ self.now }
    {
        self.items.as_slice()
    }

    pub fn into_vec(self) -> Vec<Field>
        ensures { result.items ≡ self }
    {
        let Fields { items } = self;
        items
    }
}
