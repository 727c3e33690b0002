// The calls on the input and the output.
ghost use Rattle.std.specs.Prelude.{◌≡◌, ◌++◌, ◌≤◌, ◌↔◌, ◌⊎◌, ◌/◌, IsTrue, IsErr, IfOk, OnOk, OnErr, length, take, drop};
ghost use Rattle.file_model.specs.Histories.{Hears, Says};
ghost use Rattle.file_model.specs.Causes.{HearCause, SayCause};
ghost use Rattle.mem_host.specs.Coming.{piece_length, after_turn};
ghost use Rattle.mem_host.specs.State.{history_of, said_of, is_failing, IsNextCall, IsQuietCall};

use crate::host::{MemHost, begin_call, fail};
use file_model::{Failed, Host};

impl Host for MemHost {
    fn hear(&mut self, buf: &mut [u8]) -> Result<usize, Failed>
        ensures within { IfOk result (λ n. n ≤ length buf.old) }
        ensures hears { Hears (length buf.old) buf.new result (history_of self.old) (history_of self.new) }
        ensures cause { HearCause self.old.faults self.new.faults result }
        ensures fails { IsErr result ↔ IsTrue (is_failing self.old) }
        ensures count { IfOk result (λ n. n ≡ piece_length (length buf.old) self.old.coming.cuts (length self.old.coming.bytes)) }
        ensures gives { IfOk result (λ n. take n buf.new ≡ take n self.old.coming.bytes) }
        ensures rest { IfOk result (λ n. drop n buf.new ≡ drop n buf.old) }
        ensures left { IfOk result (λ n. self.new.coming ≡ after_turn n self.old.coming) }
        ensures kept { OnErr result (self.new.coming ≡ self.old.coming) }
        ensures next { IsNextCall self.old self.new }
    {
        if !begin_call(&mut self.calls, self.fails.as_slice()) {
            self.mirror.hear_nothing();
            return Err(fail(&mut self.counts.hear));
        }
        let count = self.input.give(buf);
        self.mirror.hear(buf.len(), &buf[..count]);
        Ok(count)
    }

    fn say(&mut self, bytes: &[u8]) -> Result<(), Failed>
        ensures says { Says bytes.now result (history_of self.old) (history_of self.new) }
        ensures cause { SayCause self.old.faults self.new.faults result }
        ensures fails { IsTrue (is_failing self.old) → IsErr result }
        ensures said { OnOk result (said_of self.new ≡ said_of self.old ++ bytes.now) }
        ensures part { OnErr result ((said_of self.new ≡ said_of self.old) ⊎ (said_of self.new ≡ said_of self.old ++ take (length bytes.now / 2) bytes.now)) }
        ensures next { IsQuietCall self.old self.new }
    {
        let runs = begin_call(&mut self.calls, self.fails.as_slice());
        let part = if runs { bytes.len() } else { bytes.len() / 2 };
        if self.said.extend_from_slice(&bytes[..part]).is_err() {
            self.mirror.say_part(bytes, 0);
            return Err(fail(&mut self.counts.say));
        }
        if !runs {
            self.mirror.say_part(bytes, part);
            return Err(fail(&mut self.counts.say));
        }
        self.mirror.say(bytes);
        Ok(())
    }
}
