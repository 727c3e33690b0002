// Where a mailbox or a directory is to be made.
ghost use Rattle.std.specs.Prelude.{◌≡◌, ◌≤◌, List, ℕ, IfOk, drop, length, option_map};
ghost use Rattle.mail_tree.specs.declared.target.Target.{Target as TargetEntry};
ghost use Rattle.mail_tree.specs.Names.{driver_words, driver_named, ends_in_slash, read_target};

use crate::Name;
use any_store::is_known;
use mail_types::Driver;
use std::alloc::{AllocError, Global};

/// Where a mailbox of a driver that stands, or with `directory` a plain directory, is to be made.
#[derive(Debug, Drop)]
pub struct Target {
    pub name: Name,
    pub driver: Driver,
    pub directory: bool,
}

// The driver that is named first, or unix, and how many bytes name it.
fn driver_named(bytes: &[u8]) -> (Driver, usize)
    ensures named { driver_named driver_words bytes.now ≡ (result.0, drop result.1 bytes.now) }
    ensures within { result.1 ≤ length bytes.now }
{
    if bytes.starts_with(b"#driver.unix/") {
        return (Driver::Unix, 13);
    }
    if bytes.starts_with(b"#driver.mmdf/") {
        return (Driver::Mmdf, 13);
    }
    if bytes.starts_with(b"#driver.mbx/") {
        return (Driver::Mbx, 12);
    }
    if bytes.starts_with(b"#driver.mtx/") {
        return (Driver::Mtx, 12);
    }
    if bytes.starts_with(b"#driver.tenex/") {
        return (Driver::Tenex, 14);
    }
    if bytes.starts_with(b"#driver.mh/") {
        return (Driver::Mh, 11);
    }
    if bytes.starts_with(b"#driver.mix/") {
        return (Driver::Mix, 12);
    }
    (Driver::Unix, 0)
}

fn ends_in_slash(bytes: &[u8]) -> bool
    ensures { result ≡ ends_in_slash bytes.now }
{
    bytes.ends_with(b"/")
}

impl Target {
    /// The target that bytes are, and none where they are none: a name, or a name and a `/`, perhaps behind `#driver.NAME/`.
    pub fn read(alloc: Global, bytes: &[u8]) -> Result<Option<Target>, AllocError>
        ensures { IfOk result (λ found. option_map (λ (target : TargetEntry). record { name = target.name; driver = target.driver; directory = target.directory }) found ≡ read_target bytes.now) }
    {
        let (driver, long) = driver_named(bytes);
        if !is_known(driver) {
            return Ok(None);
        }
        let rest = &bytes[long..];
        let directory = ends_in_slash(rest);
        let text = if directory {
            &rest[..rest.len() - 1]
        } else {
            rest
        };
        match Name::read(alloc, text)? {
            Some(name) => Ok(Some(Target {
                name,
                driver,
                directory,
            })),
            None => Ok(None),
        }
    }
}
