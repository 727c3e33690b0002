// The flags of a message.
ghost use Rattle.std.specs.Prelude.{◌≡◌, ◌++◌, drop, IfOk, OnOk};
ghost use Rattle.imap_reply.specs.Texts.{behind_spaces, in_parentheses, system_flags, text_if};
ghost use Rattle.looked_message.specs.Messages.{looked_at, names_of};
ghost use Rattle.body_sections.specs.Values.{flag_names};

use looked_message::Looked;
use mail_fields::Keyword;
use mail_types::Flags;
use std::alloc::{AllocError, Global};

// Appends a space and a name, where it is set.
fn put_if(out: &mut Vec<u8>, set: bool, name: &[u8]) -> Result<(), AllocError>
    ensures { OnOk result (out.new.items ≡ out.old.items ++ behind_spaces (text_if set name.now)) }
{
    if set {
        out.push(b' ')?;
        out.extend_from_slice(name)?;
    }
    Ok(())
}

fn put_system_flags(out: &mut Vec<u8>, flags: Flags) -> Result<(), AllocError>
    ensures { OnOk result (out.new.items ≡ out.old.items ++ behind_spaces (system_flags flags)) }
{
    put_if(out, flags.seen, b"\\Seen")?;
    put_if(out, flags.answered, b"\\Answered")?;
    put_if(out, flags.flagged, b"\\Flagged")?;
    put_if(out, flags.deleted, b"\\Deleted")?;
    put_if(out, flags.draft, b"\\Draft")
}

// Appends the keyword names whose numbers are set.
fn put_names(out: &mut Vec<u8>, numbers: u32, names: &[Keyword]) -> Result<(), AllocError>
    ensures { OnOk result (out.new.items ≡ out.old.items ++ behind_spaces (names_of numbers names.now)) }
{
    let mut left = numbers;
    for name in names {
        put_if(out, left % 2 == 1, name.as_slice())?;
        left /= 2;
    }
    Ok(())
}

// The names of a message's flags, each behind a space.
#[tactic(auto, using(crate::proofs::Writing::behind_both))]
fn spaced_names(alloc: Global, message: &Looked<'_>) -> Result<Vec<u8>, AllocError>
    ensures { IfOk result (λ v. v.items ≡ behind_spaces (flag_names (looked_at message.now))) }
{
    let mut names = Vec::new(alloc);
    put_system_flags(&mut names, message.info.flags)?;
    put_names(&mut names, message.info.words, message.words)?;
    put_if(&mut names, message.recent, b"\\Recent")?;
    Ok(names)
}

// The bytes but the first.
fn behind_first(bytes: &[u8]) -> &[u8]
    ensures { result.now ≡ drop 1 bytes.now }
{
    match bytes {
        [_, rest @ ..] => rest,
        [] => bytes,
    }
}

/// Appends the flags of a message in parentheses.
pub(crate) fn put_flags(
    alloc: Global,
    out: &mut Vec<u8>,
    message: &Looked<'_>,
) -> Result<(), AllocError>
    ensures { OnOk result (out.new.items ≡ out.old.items ++ in_parentheses (flag_names (looked_at message.now))) }
{
    let names = spaced_names(alloc, message)?;
    out.push(b'(')?;
    out.extend_from_slice(behind_first(names.as_slice()))?;
    out.extend_from_slice(b")")
}
