// A reply at the end of a list of bytes.
ghost use Rattle.std.specs.Prelude.{◌≡◌, ◌++◌, OnOk, IsErr};
ghost use Rattle.std.proofs.Common.{sym, append-nil};
ghost use Rattle.imap_reply.specs.Replies.{reply_bytes};
ghost use Rattle.imap_reply.specs.Appends.{Appends, appends_more, appends_no_more};

use crate::reply::Reply;
use crate::sink::Sink;
use session_loop::Stop;
use std::alloc::AllocError;

impl Sink<()> for Vec<u8> {
    ghost puts = { λ bytes result old new host later. Appends bytes result old.items new.items };

    fn put(&mut self, _host: &mut (), bytes: &[u8]) -> Result<(), Stop> {
        match self.extend_from_slice(bytes) {
            Ok(()) => Ok(()),
            Err(_) => Err(Stop::Memory),
        }
    }

    ghost is_sink = { record { none = λ sink host. sym (append-nil sink.items); more = λ front rest result one two three first second third. appends_more front rest result one.items two.items three.items; no_more = λ front rest stop one two first second. appends_no_more front rest stop one.items two.items } };
}

/// Appends the bytes of a line.
pub fn put_reply(reply: &Reply, out: &mut Vec<u8>) -> Result<(), AllocError>
    ensures appended { OnOk result (out.new.items ≡ out.old.items ++ reply_bytes reply.now) }
    ensures unchanged { IsErr result → out.new.items ≡ out.old.items }
{
    let start = out.len();
    match reply.put(out, &mut ()) {
        Ok(()) => Ok(()),
        Err(_) => {
            out.truncate(start);
            Err(AllocError)
        }
    }
}
