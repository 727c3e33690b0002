//! Each call of the real host, on files of its own in the folder that the test runs in.
use file_model::{Failed, Fault, Files, Kind};
use real_host::{Call, RealHost};
use safe_file::{prepare, publish};
use std::alloc::Global;
use std::fs::{self, Permissions};
use std::io;
use std::os::fd::AsRawFd;
use std::os::unix::fs::{MetadataExt, PermissionsExt, chown, symlink};
use std::process::Abort;

// Whether a read from a place gives these bytes.
fn reads(host: &mut RealHost<HostRuntime>, path: &str, from: u64, bytes: &[u8]) -> bool {
    let mut buf = [0; 8];
    match host.read_at(path, from, &mut buf) {
        Ok(count) if count <= 8 => &buf[..count] == bytes,
        _ => false,
    }
}

// Whether the names in a directory are these, whatever their order.
fn lists(host: &mut RealHost<HostRuntime>, alloc: Global, dir: &str, wanted: &[&str]) -> bool {
    match host.names(alloc, dir) {
        Ok(names) => {
            names.len() == wanted.len()
                && wanted
                    .iter()
                    .all(|name| names.iter().any(|found| found.as_str() == *name))
        }
        Err(_) => false,
    }
}

#[test]
fn each_call_succeeds(rt: HostRuntime) {
    let alloc = rt.alloc();
    let mut host = RealHost::new(rt);
    assert!(rt; host.stat("calls") == Ok(Kind::Nothing));
    assert!(rt; host.make_dir("calls") == Ok(()));
    assert!(rt; host.stat("calls") == Ok(Kind::Dir));
    assert!(rt; lists(&mut host, alloc, "calls", &[]));
    assert!(rt; host.make("calls/a") == Ok(()));
    assert!(rt; host.stat("calls/a") == Ok(Kind::File(0)));
    assert!(rt; host.write_at("calls/a", 0, b"hello") == Ok(()));
    assert!(rt; host.write_at("calls/a", 4, b"0 there") == Ok(()));
    assert!(rt; reads(&mut host, "calls/a", 2, b"ll0 ther"));
    assert!(rt; host.cut("calls/a", 5) == Ok(()));
    assert!(rt; reads(&mut host, "calls/a", 0, b"hell0"));
    assert!(rt; host.sync("calls/a") == Ok(()));
    assert!(rt; host.sync_dir("calls") == Ok(()));
    assert!(rt; host.stat("calls/a/b") == Ok(Kind::Nothing));
    assert!(rt; host.rename("calls/a", "calls/b") == Ok(()));
    assert!(rt; lists(&mut host, alloc, "calls", &["b"]));
    assert!(rt; host.make_dir("calls/sub") == Ok(()));
    assert!(rt; host.remove_dir("calls/sub") == Ok(()));
    assert!(rt; host.remove("calls/b") == Ok(()));
    assert!(rt; host.stat("calls/b") == Ok(Kind::Nothing));
    assert!(rt; host.remove_dir("calls") == Ok(()));
}

#[test]
fn each_call_fails(rt: HostRuntime) {
    let alloc = rt.alloc();
    let mut host = RealHost::new(rt);
    let mut buf = [0; 8];
    let mut long = String::new(alloc);
    for _ in 0..300 {
        long.push('x').expect(&rt, "memory");
    }
    assert!(rt; host.stat(long.as_str()) == Ok(Kind::Nothing));
    assert!(rt; host.read_at("none", 0, &mut buf) == Err(Failed));
    assert!(rt; host.names(alloc, "none").is_err());
    assert!(rt; host.make("none/a") == Err(Failed));
    assert!(rt; host.make_dir("none/a") == Err(Failed));
    assert!(rt; host.write_at("none", 0, b"x") == Err(Failed));
    assert!(rt; host.cut("none", 0) == Err(Failed));
    assert!(rt; host.sync("none") == Err(Failed));
    assert!(rt; host.sync_dir("none") == Err(Failed));
    assert!(rt; host.rename("none", "other") == Err(Failed));
    assert!(rt; host.remove("none") == Err(Failed));
    assert!(rt; host.remove_dir("none") == Err(Failed));
}

// The file that stays open for reads is the one at the path, whatever was renamed.
#[test]
fn a_replaced_file_is_read_anew(rt: HostRuntime) {
    let alloc = rt.alloc();
    let mut host = RealHost::new(rt);
    assert!(rt; host.make_dir("replaced") == Ok(()));
    assert!(rt; host.make_dir("replaced/m") == Ok(()));
    assert!(rt; host.make("replaced/m/f") == Ok(()));
    assert!(rt; host.write_at("replaced/m/f", 0, b"old") == Ok(()));
    assert!(rt; reads(&mut host, "replaced/m/f", 0, b"old"));
    let pending = prepare(alloc, &mut host, "replaced/m/f", b"new!");
    match pending {
        Ok(pending) => assert!(rt; publish(&mut host, &pending) == Ok(())),
        Err(_) => assert!(rt; false),
    }
    assert!(rt; reads(&mut host, "replaced/m/f", 0, b"new!"));
    assert!(rt; host.rename("replaced/m", "replaced/n") == Ok(()));
    assert!(rt; host.make_dir("replaced/m") == Ok(()));
    assert!(rt; host.make("replaced/m/f") == Ok(()));
    assert!(rt; reads(&mut host, "replaced/m/f", 0, b""));
    assert!(rt; reads(&mut host, "replaced/n/f", 0, b"new!"));
    assert!(rt; host.remove("replaced/m/f") == Ok(()));
    assert!(rt; host.remove_dir("replaced/m") == Ok(()));
    assert!(rt; host.remove("replaced/n/f") == Ok(()));
    assert!(rt; host.remove_dir("replaced/n") == Ok(()));
    assert!(rt; host.remove_dir("replaced") == Ok(()));
}

// What the mode of a path says of who may do what. 0 where nothing stands.
fn rights(rt: &HostRuntime, path: &str) -> u32 {
    match fs::metadata(rt, path) {
        Ok(metadata) => metadata.mode() & 0o7777,
        Err(_) => 0,
    }
}

fn is_link(rt: &HostRuntime, path: &str) -> bool {
    match fs::symlink_metadata(rt, path) {
        Ok(metadata) => metadata.is_symlink(),
        Err(_) => false,
    }
}

#[test]
fn what_is_made_is_for_its_owner_alone(rt: HostRuntime) {
    let mut host = RealHost::new(rt);
    assert!(rt; host.make_dir("private") == Ok(()));
    assert!(rt; host.make("private/f") == Ok(()));
    assert!(rt; rights(&rt, "private") == 0o700);
    assert!(rt; rights(&rt, "private/f") == 0o600);
    assert!(rt; host.remove("private/f") == Ok(()));
    assert!(rt; host.remove_dir("private") == Ok(()));
}

// Only a privileged process can give a file to another owner; another one tests its rights alone.
#[test]
fn a_replaced_file_keeps_its_owner_and_rights(rt: HostRuntime) -> io::Result<()> {
    let mut host = RealHost::new(rt);
    fs::create_dir(&rt, "kept")?;
    fs::write(&rt, "kept/f", "old")?;
    let _given = chown(&rt, "kept/f", Some(1), Some(1));
    fs::set_permissions(&rt, "kept/f", Permissions::from_mode(0o640))?;
    let old = fs::metadata(&rt, "kept/f")?;
    assert!(rt; host.make("kept/new") == Ok(()));
    assert!(rt; host.rename("kept/new", "kept/f") == Ok(()));
    let new = fs::metadata(&rt, "kept/f")?;
    assert!(rt; new.ino() != old.ino());
    assert!(rt; new.uid() == old.uid());
    assert!(rt; new.gid() == old.gid());
    assert!(rt; rights(&rt, "kept/f") == 0o640);
    assert!(rt; reads(&mut host, "kept/f", 0, b""));
    fs::remove_file(&rt, "kept/f")?;
    fs::remove_dir(&rt, "kept")
}

// In a new directory: a directory with a file, a link to each, and three links at which nothing stands.
fn make_links(rt: &HostRuntime, alloc: Global, dir: &str) -> io::Result<()> {
    fs::create_dir(rt, dir)?;
    fs::create_dir(rt, format!(in alloc; "{dir}/there")?)?;
    fs::write(rt, format!(in alloc; "{dir}/there/f")?, "old")?;
    for (text, name) in [
        ("there/f", "file"),
        ("there", "directory"),
        ("none", "nowhere"),
        ("circle", "circle"),
        ("/dev/null", "device"),
    ] {
        symlink(rt, text, format!(in alloc; "{dir}/{name}")?)?;
    }
    Ok(())
}

#[test]
fn a_link_is_what_it_leads_to(rt: HostRuntime) -> io::Result<()> {
    let alloc = rt.alloc();
    let mut host = RealHost::new(rt);
    make_links(&rt, alloc, "links")?;
    assert!(rt; host.stat("links/file") == Ok(Kind::File(3)));
    assert!(rt; host.stat("links/directory") == Ok(Kind::Dir));
    assert!(rt; host.stat("links/directory/f") == Ok(Kind::File(3)));
    assert!(rt; host.stat("links/nowhere") == Ok(Kind::Nothing));
    assert!(rt; host.stat("links/circle") == Ok(Kind::Nothing));
    assert!(rt; host.stat("links/device") == Ok(Kind::Nothing));
    assert!(rt; lists(&mut host, alloc, "links", &["there", "file", "directory"]));
    assert!(rt; lists(&mut host, alloc, "links/directory", &["f"]));
    fs::remove_dir_all(&rt, "links")
}

// A pipe is nothing either.
#[test]
fn a_pipe_is_nothing(rt: HostRuntime) -> io::Result<()> {
    let mut host = RealHost::new(rt);
    let (reader, _writer) = io::pipe(&rt)?;
    let path = format!(in rt.alloc(); "/proc/self/fd/{}", reader.as_raw_fd())?;
    assert!(rt; host.stat(path.as_str()) == Ok(Kind::Nothing));
    Ok(())
}

// Whether a call failed with the reason of this kind.
fn fails(host: &RealHost<HostRuntime>, call: Call, path: &str, kind: io::ErrorKind) -> bool {
    match host.last_fault() {
        Some(fault) => {
            fault.call() == call && fault.path() == path && fault.error().kind() == kind
        }
        None => false,
    }
}

// No file and no directory is made at the name of a link that leads nowhere, and no file replaces one.
#[test]
fn a_link_is_not_exchanged_for_a_file(rt: HostRuntime) -> io::Result<()> {
    let mut host = RealHost::new(rt);
    make_links(&rt, rt.alloc(), "lost")?;
    assert!(rt; host.make("lost/nowhere") == Err(Failed));
    assert!(rt; host.make_dir("lost/circle") == Err(Failed));
    assert!(rt;
        fails(
            &host,
            Call::MakeDir,
            "lost/circle",
            io::ErrorKind::AlreadyExists
        )
    );
    assert!(rt; host.rename("lost/there/f", "lost/nowhere") == Err(Failed));
    assert!(rt; fails(&host, Call::Rename, "lost/nowhere", io::ErrorKind::NotFound));
    assert!(rt; host.rename("lost/there/f", "lost/circle") == Err(Failed));
    assert!(rt; host.rename("lost/there/f", "lost/device") == Err(Failed));
    assert!(rt; host.rename("lost/there/f", "lost/directory") == Err(Failed));
    assert!(rt; host.rename("lost/file", "lost/there/g") == Err(Failed));
    assert!(rt; is_link(&rt, "lost/nowhere"));
    assert!(rt; is_link(&rt, "lost/circle"));
    assert!(rt; is_link(&rt, "lost/device"));
    assert!(rt; is_link(&rt, "lost/directory"));
    assert!(rt; reads(&mut host, "lost/file", 0, b"old"));
    fs::remove_dir_all(&rt, "lost")
}

#[test]
fn a_file_is_replaced_behind_its_link(rt: HostRuntime) -> io::Result<()> {
    let alloc = rt.alloc();
    let mut host = RealHost::new(rt);
    make_links(&rt, alloc, "behind")?;
    fs::set_permissions(&rt, "behind/there/f", Permissions::from_mode(0o640))?;
    match prepare(alloc, &mut host, "behind/file", b"new!") {
        Ok(pending) => assert!(rt; publish(&mut host, &pending) == Ok(())),
        Err(_) => assert!(rt; false),
    }
    assert!(rt; is_link(&rt, "behind/file"));
    assert!(rt; reads(&mut host, "behind/file", 0, b"new!"));
    assert!(rt; reads(&mut host, "behind/there/f", 0, b"new!"));
    assert!(rt; rights(&rt, "behind/there/f") == 0o640);
    assert!(rt; lists(&mut host, alloc, "behind/there", &["f"]));
    assert!(rt; host.rename("behind/file", "behind/moved") == Ok(()));
    assert!(rt; is_link(&rt, "behind/moved"));
    assert!(rt; host.stat("behind/moved") == Ok(Kind::File(4)));
    fs::remove_dir_all(&rt, "behind")
}

// What another program puts in a file's place is read once the path was looked up.
#[test]
fn a_file_is_read_anew_behind_stat(rt: HostRuntime) -> io::Result<()> {
    let mut host = RealHost::new(rt);
    fs::create_dir(&rt, "others")?;
    fs::write(&rt, "others/f", "old")?;
    fs::write(&rt, "others/new", "new!")?;
    assert!(rt; reads(&mut host, "others/f", 0, b"old"));
    fs::rename(&rt, "others/new", "others/f")?;
    assert!(rt; host.stat("others") == Ok(Kind::Dir));
    assert!(rt; reads(&mut host, "others/f", 0, b"old"));
    assert!(rt; host.stat("others/f") == Ok(Kind::File(4)));
    assert!(rt; reads(&mut host, "others/f", 0, b"new!"));
    fs::remove_dir_all(&rt, "others")
}

#[test]
fn the_last_fault_is_told(rt: HostRuntime) -> io::Result<()> {
    let alloc = rt.alloc();
    let mut host = RealHost::new(rt);
    let mut buf = [0; 8];
    assert!(rt; host.last_fault().is_none());
    assert!(rt; host.read_at("no\nne", 0, &mut buf) == Err(Failed));
    match host.last_fault() {
        Some(fault) => {
            let line = format!(in alloc; "{fault}")?;
            assert!(rt;
                line.as_str() == "read \"no\\nne\": No such file or directory (os error 2)"
            );
        }
        None => assert!(rt; false),
    }
    assert!(rt; host.names(alloc, "none").is_err());
    assert!(rt; fails(&host, Call::Names, "none", io::ErrorKind::NotFound));
    Ok(())
}
