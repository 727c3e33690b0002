// One file: each call opens it, but for reads, whose file is open.
ghost use Rattle.std.specs.Prelude.{◌≤◌, length, IfOk};

use std::fs::{self, OpenFile, OpenOptions};
use std::io::{self, ErrorKind, Read, Seek, SeekFrom, Write};
use std::os::unix::fs::OpenOptionsExt;
use std::rt::Runtime;

/// Makes a file for its owner alone.
pub(crate) fn make_file<R: Runtime>(rt: &R, path: &str) -> io::Result<()> {
    let _file = OpenOptions::new()
        .write(true)
        .create_new(true)
        .mode(0o600)
        .open(rt, path)?;
    Ok(())
}

/// Fills the buffer from a place in a file, up to the file's end.
pub(crate) fn read_file<F: Read + Seek>(
    file: &mut F,
    from: u64,
    buf: &mut [u8],
) -> io::Result<usize>
    ensures { IfOk result (λ n. n ≤ length buf.new) }
{
    file.seek(SeekFrom::Start(from))?;
    fill(file, buf)
}

// The file ends where a read gives no byte.
fn fill<F: Read>(file: &mut F, buf: &mut [u8]) -> io::Result<usize>
    ensures { IfOk result (λ n. n ≤ length buf.new) }
{
    let mut done = 0;
    for _ in 0..u64::MAX {
        if done >= buf.len() {
            break;
        }
        match file.read(&mut buf[done..]) {
            Ok(0) => break,
            Ok(count) => done += count,
            Err(error) if error.kind() == ErrorKind::Interrupted => {}
            Err(error) => return Err(error),
        }
    }
    Ok(done)
}

pub(crate) fn write_file<R: Runtime>(
    rt: &R,
    path: &str,
    from: u64,
    bytes: &[u8],
) -> io::Result<()> {
    let mut file = OpenOptions::new().write(true).open(rt, path)?;
    file.seek(SeekFrom::Start(from))?;
    file.write_all(bytes)
}

pub(crate) fn cut_file<R: Runtime>(rt: &R, path: &str, length: u64) -> io::Result<()> {
    OpenOptions::new()
        .write(true)
        .open(rt, path)?
        .set_len(length)
}

pub(crate) fn sync_file<R: Runtime>(rt: &R, path: &str) -> io::Result<()> {
    OpenOptions::new().write(true).open(rt, path)?.sync_all()
}

pub(crate) fn remove_file<R: Runtime>(rt: &R, path: &str) -> io::Result<()> {
    fs::remove_file(rt, path)
}
