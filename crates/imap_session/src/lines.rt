// Lines of a reply, one behind the other.
ghost use Rattle.session_loop.specs.Outcome.{UnitCause};
ghost use Rattle.imap_session.specs.Lines.{reply_lines};
ghost use Rattle.imap_session.specs.Putting.{PutsLines};

use file_model::Host;
use imap_reply::{Reply, ReplyBuffer};
use session_loop::Stop;

/// Puts lines.
pub fn put_replies<H: Host>(
    lines: &[Reply],
    host: &mut H,
    out: &mut ReplyBuffer,
) -> Result<(), Stop>
    ensures puts { PutsLines (reply_lines lines.now) out.old out.new result (H.history host.old) (H.history host.new) }
    ensures cause { UnitCause (H.faults host.old) (H.faults host.new) result }
{
    for line in lines {
        out.put(host, line)?;
    }
    Ok(())
}
