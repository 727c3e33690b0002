// NUL, which no string of IMAP may have (RFC 3501, section 4.3.1).
ghost use Rattle.std.specs.Prelude.{◌≡◌, map};
ghost use Rattle.text_forms.specs.Lines.{clean_byte};

fn clean_byte(byte: u8) -> u8
    ensures { result ≡ clean_byte byte }
{
    if byte == 0 { 0x80 } else { byte }
}

/// Writes 80 hex over each NUL.
pub fn clean_nul(bytes: &mut [u8])
    ensures { bytes.new ≡ map clean_byte bytes.old }
{
    for byte in bytes.iter_mut() {
        *byte = clean_byte(*byte);
    }
}
