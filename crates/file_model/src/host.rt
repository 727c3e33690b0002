// A host: files, and a stream of input and one of output.
ghost use Rattle.std.specs.Prelude.{◌≡◌, ◌≤◌, length, IfOk};
ghost use Rattle.file_model.specs.Histories.{Hears, Says};
ghost use Rattle.file_model.specs.Causes.{HearCause, SayCause};

use crate::{Failed, Files};

pub trait Host: Files {
    /// The next bytes of the input; none for a buffer that isn't empty is the end.
    fn hear(&mut self, buf: &mut [u8]) -> Result<usize, Failed>
        ensures within { IfOk result (λ n. n ≤ length buf.old) }
        ensures hears { Hears (length buf.old) buf.new result (Self.history self.old) (Self.history self.new) }
        ensures cause { HearCause (Self.faults self.old) (Self.faults self.new) result };

    /// Says all bytes, or where it fails some of them.
    fn say(&mut self, bytes: &[u8]) -> Result<(), Failed>
        ensures says { Says bytes.now result (Self.history self.old) (Self.history self.new) }
        ensures cause { SayCause (Self.faults self.old) (Self.faults self.new) result };
}
