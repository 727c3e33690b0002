// The names of data files, and their paths.
ghost use Rattle.std.specs.Prelude.{◌≡◌, Some, None, IfOk, MatchOption, string_bytes, length};
ghost use Rattle.mix_data.specs.DataFiles.{data_path, number_of_name};
ghost use Rattle.std.specs.List.{list_all};
ghost use Rattle.mail_fields.specs.Numbers.{number_in};
ghost use Rattle.file_model.specs.Reserved.{is_data_file, is_lower_hex};

use mail_fields::{put_hex, read_hex};
use std::alloc::{AllocError, Global};
use std::str;

/// The path of a data file in a directory.
pub fn data_path(alloc: Global, dir: &str, number: u32) -> Result<String, AllocError>
    ensures { IfOk result (λ s. string_bytes s ≡ data_path dir.now number) }
{
    let mut path = String::from_str(alloc, dir)?;
    path.push_str("/.mix")?;
    let mut digits = [b'0'; 8];
    put_hex(&mut digits, 0, 8, u64::from(number));
    match str::from_utf8(&digits) {
        Ok(digits) => {
            path.push_str(digits)?;
            Ok(path)
        }
        Err(_) => Err(AllocError),
    }
}

/// The number in the name of a data file.
pub fn number_of_name(name: &str) -> Option<u32>
    ensures { result ≡ number_of_name name.now }
{
    let bytes = name.as_bytes();
    if is_data_name(bytes) {
        digits_of(&bytes[4..])
    } else {
        None
    }
}

// Whether a name is that of a data file.
fn is_data_name(name: &[u8]) -> bool
    ensures { result ≡ is_data_file name.now }
{
    if !name.starts_with(b".mix") {
        return false;
    }
    if name.len() != 12 {
        return false;
    }
    are_lower_hex(&name[4..])
}

fn are_lower_hex(bytes: &[u8]) -> bool
    ensures { result ≡ list_all is_lower_hex bytes.now }
{
    bytes.iter().all(|byte| is_lower_hex(*byte))
}

// The number that eight hex digits write.
fn digits_of(digits: &[u8]) -> Option<u32>
    requires { length digits.now ≡ 8 }
    ensures { result ≡ number_in 16 digits.now }
{
    let number = read_hex(digits, 8)?;
    Some(number as u32)
}

fn is_lower_hex(byte: u8) -> bool
    ensures { result ≡ is_lower_hex byte }
{
    byte.is_ascii_digit() || matches!(byte, b'a'..=b'f')
}
