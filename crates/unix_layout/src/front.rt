// What stands in front of a text that is no unix file.
ghost use Rattle.std.specs.Prelude.{◌≡◌, ◌<◌, ℕ, List, true, false, None, length, map, take};
ghost use Rattle.mail_fields.specs.DelimiterLine.{is_delimiter_line};
ghost use Rattle.text_forms.specs.Lines.{clean_byte};
ghost use Rattle.text_lines.specs.Lines.{lines_of};
ghost use Rattle.file_store.specs.Scans.{IsNoFile};
ghost use Rattle.unix_form.specs.Messages.{messages_in};
ghost use Rattle.unix_layout.specs.Forms.{unix_read};

use mail_fields::is_delimiter_line;
use text_lines::line_length;

// Whether fewer bytes of a line are a delimiter line. One has at most 1,000.
fn begins_short(line: &[u8]) -> bool
    ensures yes { result ≡ true → (long : ℕ) × (long < length line.now) × (is_delimiter_line (take long line.now) ≡ true) }
    ensures no { result ≡ false → (long : ℕ) → long < length line.now → is_delimiter_line (take long line.now) ≡ false }
{
    let most = line.len().min(1001);
    for long in 0..most {
        if is_delimiter_line(line.split_at(long).0) {
            return true;
        }
    }
    false
}

/// How many messages stand in the longest first part that is a file, of a text that is none.
pub fn front_messages(text: &[u8]) -> u32
    requires some { 0 < length text.now }
    requires none { messages_in (lines_of text.now) ≡ None }
    ensures { (bytes : List ℕ) → map clean_byte bytes ≡ text.now → IsNoFile unix_read bytes result }
{
    let line = text.split_at(line_length(text)).0;
    if begins_short(line) { 1 } else { 0 }
}
