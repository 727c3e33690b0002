// Spaces and tabs at the ends of some bytes.
ghost use Rattle.std.specs.Prelude.{◌≡◌};
ghost use Rattle.head_fields.specs.Blanks.{trim_start, trim_end};

use text_lines::is_blank;

pub(crate) fn trim_start(bytes: &[u8]) -> &[u8]
    ensures { result.now ≡ trim_start bytes.now }
{
    let mut from = 0;
    while from < bytes.len() && is_blank(bytes[from]) {
        from += 1;
    }
    &bytes[from..]
}

pub(crate) fn trim_end(bytes: &[u8]) -> &[u8]
    ensures { result.now ≡ trim_end bytes.now }
{
    let mut to = bytes.len();
    while to > 0 && is_blank(bytes[to - 1]) {
        to -= 1;
    }
    &bytes[..to]
}
