// Where a new content waits.
ghost use Rattle.std.specs.Prelude.{◌≡◌, IfOk, string_bytes, false};
ghost use Rattle.file_model.specs.Paths.{parent, temporary_of, is_top};

use file_model::split;
use std::alloc::{AllocError, Global};

/// A new content of a file that waits in the temporary file beside it.
#[derive(Drop)]
pub struct Pending {
    /// The file's path, which isn't a top.
    pub path: String,
    /// The path of the temporary file: in the same directory, with `.new` before the file's name.
    pub temporary: String,
    /// The directory of both.
    pub directory: String,
    ghost below: { is_top (string_bytes path) ≡ false },
    ghost beside: { string_bytes temporary ≡ temporary_of (string_bytes path) },
    ghost within: { string_bytes directory ≡ parent (string_bytes path) },
}

pub(crate) fn places(alloc: Global, path: &str) -> Result<Pending, AllocError>
    requires { is_top path.now ≡ false }
    ensures { IfOk result (λ pending. string_bytes pending.path ≡ path.now) }
{
    let Some((parent, name)) = split(path) else {
        unreachable!()
    };
    let directory = String::from_str(alloc, parent)?;
    let mut temporary = String::from_str(alloc, parent)?;
    temporary.push_str("/.new")?;
    temporary.push_str(name)?;
    let path = String::from_str(alloc, path)?;
    Ok(Pending {
        path,
        temporary,
        directory,
    })
}
