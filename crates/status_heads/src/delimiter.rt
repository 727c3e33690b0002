// The delimiter line of a message.
ghost use Rattle.std.specs.Prelude.{◌≡◌, Some, pos, IfOk};
ghost use Rattle.mail_fields.specs.DelimiterLine.{delimiter_stamp};
ghost use Rattle.mail_fields.specs.Stamps.{parts_of};
ghost use Rattle.status_heads.specs.Delimiters.{delimiter_text};

use mail_fields::{Stamp, put_from_date};
use std::alloc::{AllocError, Global};

/// The delimiter line of a message with a stamp in UTC, which LF ends.
pub fn put_delimiter(alloc: Global, stamp: Stamp) -> Result<Vec<u8>, AllocError>
    requires utc { stamp.zone_minutes ≡ pos 0 }
    ensures text { IfOk result (λ v. v.items ≡ delimiter_text stamp.day stamp.second) }
    ensures read { IfOk result (λ v. delimiter_stamp v.items ≡ Some (parts_of stamp)) }
{
    let mut date = [b' '; 24];
    put_from_date(&mut date, 0, stamp);
    let mut line = Vec::from_slice(alloc, b"From MAILER-DAEMON ")?;
    line.extend_from_slice(&date)?;
    line.extend_from_slice(b"\n")?;
    Ok(line)
}
