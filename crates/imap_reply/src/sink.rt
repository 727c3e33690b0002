// What takes the bytes of replies.
ghost use Rattle.imap_reply.specs.Sinks.{Putting, IsSink};

use session_loop::Stop;

/// What takes the bytes of replies, piece by piece. `W` is the host that they are said to, if they are.
pub trait Sink<W> {
    ghost puts: { Putting Self W };

    /// Puts bytes behind those that were put.
    fn put(&mut self, host: &mut W, bytes: &[u8]) -> Result<(), Stop>
        ensures { puts bytes.now result self.old self.new host.old host.new };

    ghost is_sink: { IsSink puts };
}
