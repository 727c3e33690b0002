// Standard input and output.
ghost use Rattle.std.specs.Prelude.{◌≤◌, length, IfOk};

use std::io::{self, ErrorKind, Read, Write};
use std::rt::Runtime;

/// One read of standard input, begun again where a signal interrupts it.
pub(crate) fn read_input<R: Runtime>(rt: &R, buf: &mut [u8]) -> io::Result<usize>
    ensures { IfOk result (λ n. n ≤ length buf.new) }
{
    for _ in 0..u64::MAX {
        match rt.reader().read(buf) {
            Err(error) if error.kind() == ErrorKind::Interrupted => {}
            answer => return answer,
        }
    }
    Err(io::Error::from(ErrorKind::Interrupted))
}

/// Writes all bytes. A write that takes none of them is an error.
pub(crate) fn write_output<R: Runtime>(rt: &R, bytes: &[u8]) -> io::Result<()> {
    io::writer(rt).write_all(bytes)
}
