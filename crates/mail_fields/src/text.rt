// Texts that are written into a buffer.
ghost use Rattle.std.specs.Prelude.{◌≡◌, ◌≤◌, ◌+◌, ◌++◌, length};
ghost use Rattle.mail_fields.specs.Texts.{written_at};

// Writes a text at a place, and no other byte.
#[tactic(auto, unfolding(crate::specs::Texts::written_at))]
fn put(buf: &mut [u8], place: usize, text: &[u8])
    requires { place + length text.now ≤ length buf.old }
    ensures { buf.new ≡ written_at buf.old place text.now }
{
    buf[place..place + text.len()].copy_from_slice(text);
}

// Writes the three parts of a text, one behind the other.
pub(crate) fn put_parts(buf: &mut [u8], place: usize, first: &[u8], middle: &[u8], last: &[u8])
    requires { place + length first.now + length middle.now + length last.now ≤ length buf.old }
    ensures { buf.new ≡ written_at buf.old place (first.now ++ middle.now ++ last.now) }
{
    put(buf, place, first);
    put(buf, place + first.len(), middle);
    put(buf, place + first.len() + middle.len(), last);
}
