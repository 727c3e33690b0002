// The contents of files, as reads see them.
ghost use Rattle.std.specs.Prelude.{◌≡◌, ◌≤◌, ◌<◌, ℕ, length, take, slice_set, Some, OnOk, OnErr, Vec};
ghost use Rattle.std.specs.declared.alloc.Global.{Global};
ghost use Rattle.std.specs.BTreeMap.{get_by_text};
ghost use Rattle.file_model.specs.Disk.{written};
ghost use Rattle.mem_host.specs.Mirrored.{LeadsTo, IsChanged, IsSame};

use crate::names::Place;
use std::alloc::AllocError;
use std::collections::BTreeMap;

/// Writes into the content of a file. Where that fails all stays as it was.
pub(crate) fn write_content(
    names: &BTreeMap<String, Place>,
    contents: &mut Vec<Vec<u8>>,
    path: &str,
    from: u64,
    bytes: &[u8],
) -> Result<(), AllocError>
    requires { LeadsTo path.now from names.now contents.old.items }
    ensures ok { OnOk result (IsChanged path.now (written from bytes.now) names.now contents.old.items contents.new.items) }
    ensures err { OnErr result (IsSame contents.old.items contents.new.items) }
{
    match names.get(path) {
        Some(Place::File(id)) => write_bytes(&mut contents[*id], from as usize, bytes),
        _ => unreachable!(),
    }
}

pub(crate) fn write_bytes(
    content: &mut Vec<u8>,
    place: usize,
    bytes: &[u8],
) -> Result<(), AllocError>
    requires { place ≤ length content.old.items }
    ensures ok { OnOk result (content.new.items ≡ written place bytes.now content.old.items) }
    ensures err { OnErr result (content.new.items ≡ content.old.items) }
{
    let end = place + bytes.len();
    if end > content.len() {
        content.resize(end, 0)?;
    }
    content[place..end].copy_from_slice(bytes);
    Ok(())
}

/// Cuts the content of a file.
pub(crate) fn cut_content(
    names: &BTreeMap<String, Place>,
    contents: &mut Vec<Vec<u8>>,
    path: &str,
    length: u64,
)
    requires { LeadsTo path.now length names.now contents.old.items }
    ensures { IsChanged path.now (take length) names.now contents.old.items contents.new.items }
{
    match names.get(path) {
        Some(Place::File(id)) => contents[*id].truncate(length as usize),
        _ => unreachable!(),
    }
}
