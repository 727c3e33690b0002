// Short lines, which take no memory.
ghost use Rattle.std.specs.Prelude.{◌≡◌, ◌≤◌, ◌++◌, ◌+◌, true, length, drop};
ghost use Rattle.std.proofs.Common.{sym, append-nil};
ghost use Rattle.imap_reply.specs.Replies.{reply_bytes};
ghost use Rattle.imap_reply.specs.Short.{is_short, Fits, fits_more, fits_no_more};

use crate::reply::Reply;
use crate::sink::Sink;
use arrayvec::ArrayVec;
use session_loop::Stop;

impl Sink<()> for ArrayVec<u8, 128> {
    ghost puts = { λ bytes result old new host later. Fits bytes result old.items new.items };

    fn put(&mut self, _host: &mut (), bytes: &[u8]) -> Result<(), Stop> {
        match self.try_extend_from_slice(bytes) {
            Ok(()) => Ok(()),
            Err(_) => Err(Stop::Memory),
        }
    }

    ghost is_sink = { record { none = λ sink host. sym (append-nil sink.items); more = λ front rest result one two three first second third. fits_more front rest result one.items two.items three.items; no_more = λ front rest stop one two first second. fits_no_more front rest stop one.items two.items } };
}

// How many bytes the tag of a short line has.
#[tactic(auto, using(crate::proofs::Bytes::done_width))]
fn tag_width(reply: &Reply) -> usize
    ensures few { result ≤ 64 }
    ensures rest { is_short reply.now ≡ true → length (reply_bytes reply.now) ≤ result + 22 }
{
    match reply {
        Reply::Done(tag, _) => tag.as_slice().len(),
        _ => 0,
    }
}

/// Writes a line at the front of a buffer, and gives the number of its bytes.
pub fn put_short(reply: &Reply, buf: &mut [u8]) -> usize
    requires short { is_short reply.now ≡ true }
    requires room { 128 ≤ length buf.old }
    ensures count { result ≡ length (reply_bytes reply.now) }
    ensures written { buf.new ≡ reply_bytes reply.now ++ drop result buf.old }
{
    // So the line fits.
    prove!(tag_width(reply) <= 64);
    let mut line: ArrayVec<u8, 128> = ArrayVec::new();
    if reply.put(&mut line, &mut ()).is_err() {
        unreachable!();
    }
    let text = line.as_slice();
    buf[..text.len()].copy_from_slice(text);
    text.len()
}
