// The names of LIST and LSUB, as lines.
ghost use Rattle.std.specs.Prelude.{◌≡◌, IfOk, map};
ghost use Rattle.mail_tree.specs.declared.finding.Listed.{Listed as ListedEntry};
ghost use Rattle.imap_session.specs.Listed.{name_line};

use imap_reply::Reply;
use mail_fields::Bytes;
use mail_tree::Listed;
use std::alloc::{AllocError, Global};

// The line of a name, which LSUB or LIST gives.
fn name_line(alloc: Global, entry: &Listed, subscribed: bool) -> Result<Reply, AllocError>
    ensures { IfOk result (λ line. line ≡ name_line subscribed (record { name = entry.now.name; directory = entry.now.directory })) }
{
    let name = Bytes::of(alloc, entry.name.as_slice())?;
    if subscribed {
        return Ok(Reply::Lsub(name, entry.directory));
    }
    Ok(Reply::List(name, entry.directory))
}

/// The lines of names, which LSUB or LIST gives.
pub fn name_lines(
    alloc: Global,
    names: &[Listed],
    subscribed: bool,
) -> Result<Vec<Reply>, AllocError>
    ensures { IfOk result (λ lines. lines.items ≡ map (λ (entry : ListedEntry). name_line subscribed (record { name = entry.name; directory = entry.directory })) names.now) }
{
    let mut lines = Vec::new(alloc);
    for entry in names {
        let line = name_line(alloc, entry, subscribed)?;
        lines.push(line)?;
    }
    Ok(lines)
}
