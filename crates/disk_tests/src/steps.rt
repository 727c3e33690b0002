//! Calls on a host that look first whether they fit, told by lines of text.
ghost use Rattle.std.specs.Prelude.{◌≡◌, [], true, false, IfOk};
ghost use Rattle.file_model.specs.Disk.{seen};
ghost use Rattle.file_model.specs.Histories.{Now};
ghost use Rattle.file_model.specs.Images.{is_directory, node_at, names_in};
ghost use Rattle.file_model.specs.Kinds.{kind_of, IsFile};
ghost use Rattle.file_model.specs.Paths.{parent, is_top};

use file_model::{Failed, Fault, Files, Host, Kind, split};
use std::alloc::{AllocError, Global};

// Whether a name can be put at a path: its directory stands, and is no top's.
fn has_room<F: Files>(host: &mut F, path: &str) -> Result<bool, Failed>
    ensures same { F.history host.new ≡ F.history host.old }
    ensures room { IfOk result (λ room. room ≡ true → Now (F.history host.old) (λ w. is_directory (seen w.disk) (parent path.now) ≡ true)) }
    ensures below { IfOk result (λ room. room ≡ true → is_top path.now ≡ false) }
{
    match split(path) {
        Some((dir, _)) if !dir.is_empty() => match host.stat(dir)? {
            Kind::Dir => Ok(true),
            _ => Ok(false),
        },
        _ => Ok(false),
    }
}

fn make<F: Files>(host: &mut F, path: &str) -> Result<(), Failed> {
    if !has_room(host, path)? {
        return Err(Failed);
    }
    match host.stat(path)? {
        Kind::Nothing => host.make(path),
        _ => Err(Failed),
    }
}

pub(crate) fn write<F: Files>(
    host: &mut F,
    path: &str,
    from: u64,
    bytes: &[u8],
) -> Result<(), Failed> {
    match host.stat(path)? {
        Kind::File(length) if from <= length => host.write_at(path, from, bytes),
        _ => Err(Failed),
    }
}

fn cut<F: Files>(host: &mut F, path: &str, to: u64) -> Result<(), Failed> {
    match host.stat(path)? {
        Kind::File(length) if to <= length => host.cut(path, to),
        _ => Err(Failed),
    }
}

fn sync<F: Files>(host: &mut F, path: &str) -> Result<(), Failed> {
    match host.stat(path)? {
        Kind::File(_) => host.sync(path),
        _ => Err(Failed),
    }
}

fn sync_dir<F: Files>(host: &mut F, path: &str) -> Result<(), Failed> {
    match host.stat(path)? {
        Kind::Dir => host.sync_dir(path),
        _ => Err(Failed),
    }
}

fn remove<F: Files>(host: &mut F, path: &str) -> Result<(), Failed> {
    match host.stat(path)? {
        Kind::File(_) => host.remove(path),
        _ => Err(Failed),
    }
}

fn move_file<F: Files>(host: &mut F, from: &str, to: &str) -> Result<(), Failed> {
    if !has_room(host, to)? {
        return Err(Failed);
    }
    if host.stat(to)? == Kind::Dir {
        return Err(Failed);
    }
    match host.stat(from)? {
        Kind::File(_) => host.rename(from, to),
        _ => Err(Failed),
    }
}

// Whether this stands at a path.
fn stands<F: Files>(host: &mut F, path: &str, kind: Kind) -> Result<bool, Failed>
    ensures same { F.history host.new ≡ F.history host.old }
    ensures stands { IfOk result (λ is. is ≡ true → Now (F.history host.old) (λ w. kind ≡ kind_of (node_at (seen w.disk) path.now))) }
{
    Ok(host.stat(path)? == kind)
}

// Moves `/m/a` to `/m/b`.
fn move_dir<F: Files>(host: &mut F) -> Result<(), Failed> {
    if stands(host, "/m", Kind::Dir)?
        && stands(host, "/m/a", Kind::Dir)?
        && stands(host, "/m/b", Kind::Nothing)?
    {
        return host.rename("/m/a", "/m/b");
    }
    Err(Failed)
}

// Makes the directory `/m/d`.
fn make_dir<F: Files>(host: &mut F) -> Result<(), Failed> {
    if stands(host, "/m", Kind::Dir)? && stands(host, "/m/d", Kind::Nothing)? {
        return host.make_dir("/m/d");
    }
    Err(Failed)
}

fn is_empty<F: Files>(alloc: Global, host: &mut F, dir: &str) -> Result<bool, Fault>
    requires { Now (F.history host.old) (λ w. is_directory (seen w.disk) dir.now ≡ true) }
    ensures same { F.history host.new ≡ F.history host.old }
    ensures empty { IfOk result (λ is. is ≡ true → Now (F.history host.old) (λ w. names_in (seen w.disk) dir.now ≡ [])) }
{
    let names = host.names(alloc, dir)?;
    Ok(names.as_slice().is_empty())
}

fn remove_dir<F: Files>(alloc: Global, host: &mut F, dir: &str) -> Result<(), Failed> {
    match host.stat(dir)? {
        Kind::Dir => {}
        _ => return Err(Failed),
    }
    match is_empty(alloc, host, dir) {
        Ok(true) => host.remove_dir(dir),
        _ => Err(Failed),
    }
}

// ---- Lines

fn change<F: Files>(
    alloc: Global,
    host: &mut F,
    word: &str,
    path: &str,
    more: &str,
) -> Result<(), Failed> {
    match word {
        "make" => make(host, path),
        "makedir" => make_dir(host),
        "write" => write(host, path, 0, more.as_bytes()),
        "add" => write(host, path, 3, more.as_bytes()),
        "cut" => cut(host, path, 1),
        "sync" => sync(host, path),
        "syncdir" => sync_dir(host, path),
        "move" => move_file(host, path, more),
        "movedir" => move_dir(host),
        "remove" => remove(host, path),
        "removedir" => remove_dir(alloc, host, path),
        _ => Err(Failed),
    }
}

fn put(text: &mut Vec<u8>, more: &[u8]) -> Result<(), AllocError> {
    text.extend_from_slice(more)
}

fn put_done(text: &mut Vec<u8>, done: Result<(), Failed>) -> Result<(), AllocError> {
    match done {
        Ok(()) => put(text, b"ok"),
        Err(Failed) => put(text, b"failed"),
    }
}

// What stands at a path, or the first four bytes of the file, with dashes where it has fewer.
fn look<F: Files>(
    host: &mut F,
    word: &str,
    path: &str,
    text: &mut Vec<u8>,
) -> Result<(), AllocError> {
    match (host.stat(path), word) {
        (Ok(Kind::File(_)), "read") => read(host, path, text),
        (Ok(Kind::Nothing), _) => put(text, b"nothing"),
        (Ok(Kind::Dir), _) => put(text, b"dir"),
        (Ok(Kind::File(length)), _) => {
            put(text, b"file ")?;
            text.push(b'0' + (length % 10) as u8)?;
            Ok(())
        }
        (Err(Failed), _) => put(text, b"failed"),
    }
}

fn read<F: Files>(host: &mut F, path: &str, text: &mut Vec<u8>) -> Result<(), AllocError>
    requires { Now (F.history host.old) (λ w. IsFile (seen w.disk) path.now 0) }
{
    let mut buf = [b'-'; 4];
    match host.read_at(path, 0, &mut buf) {
        Ok(_) => put(text, &buf),
        Err(Failed) => put(text, b"failed"),
    }
}

fn list<F: Files>(
    alloc: Global,
    host: &mut F,
    dir: &str,
    text: &mut Vec<u8>,
) -> Result<(), AllocError> {
    let mut names = match host.stat(dir) {
        Ok(Kind::Dir) => match host.names(alloc, dir) {
            Ok(names) => names,
            Err(_) => return put(text, b"failed"),
        },
        _ => return put(text, b"failed"),
    };
    names.sort()?;
    for name in names.iter() {
        put(text, name.as_bytes())?;
        put(text, b"/")?;
    }
    Ok(())
}

fn hear<H: Host>(host: &mut H, text: &mut Vec<u8>) -> Result<(), AllocError> {
    let mut buf = [b'-'; 4];
    match host.hear(&mut buf) {
        Ok(count) => put(text, &buf[..count]),
        Err(Failed) => put(text, b"failed"),
    }
}

fn step<H: Host>(
    alloc: Global,
    host: &mut H,
    line: &str,
    text: &mut Vec<u8>,
) -> Result<(), AllocError> {
    let (word, rest) = line.split_once(' ').unwrap_or((line, ""));
    match word {
        "stat" => look(host, word, rest, text),
        "read" => look(host, word, rest, text),
        "list" => list(alloc, host, rest, text),
        "hear" => hear(host, text),
        "say" => put_done(text, host.say(rest.as_bytes())),
        _ => {
            let (path, more) = rest.split_once(' ').unwrap_or((rest, ""));
            put_done(text, change(alloc, host, word, path, more))
        }
    }
}

/// Does the steps of a line, each with a semicolon behind it, and gives their answers in the same form.
pub(crate) fn play<H: Host>(
    alloc: Global,
    host: &mut H,
    steps: &str,
) -> Result<Vec<u8>, AllocError> {
    let mut text = Vec::new(alloc);
    for line in steps.split(';') {
        if !line.is_empty() {
            step(alloc, host, line, &mut text)?;
            text.push(b';')?;
        }
    }
    Ok(text)
}
