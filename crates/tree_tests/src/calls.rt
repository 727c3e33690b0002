// The calls on the tree, as a row of a table has them, and their answers as it shows them.
use crate::disk::ROOT;
use any_store::{AnyStore, is_known};
use bare_host::BareHost;
use mail_tree::{
    Listed, Name, Target, TreeFault, create, create_dir, delete, list, lsub, open, rename,
    subscribe, unsubscribe,
};
use mail_types::Driver;
use std::alloc::{AllocError, Global};
use std::test::Fail;
use store_trait::{OpenFault, Store};

// ---- Answers

pub(crate) fn driver_word(driver: Driver) -> &'static str {
    match driver {
        Driver::Unix => "unix",
        Driver::Mmdf => "mmdf",
        Driver::Mbx => "mbx",
        Driver::Mtx => "mtx",
        Driver::Tenex => "tenex",
        Driver::Mh => "mh",
        Driver::Mix => "mix",
    }
}

fn fault_text(alloc: Global, fault: TreeFault) -> Result<String, AllocError> {
    match fault {
        TreeFault::Open(OpenFault::IllFormed(driver, records)) => {
            let word = driver_word(driver);
            format!(in alloc; "ill-formed {word} after {records}")
        }
        fault => format!(in alloc; "{fault}"),
    }
}

fn done_text(alloc: Global, answer: Result<(), TreeFault>) -> Result<String, AllocError> {
    match answer {
        Ok(()) => String::from_str(alloc, "done"),
        Err(fault) => fault_text(alloc, fault),
    }
}

// The driver of an open mailbox, its validity and its count.
fn store_text(alloc: Global, store: &AnyStore) -> Result<String, AllocError> {
    let word = driver_word(Store::<BareHost>::driver(store));
    let validity = Store::<BareHost>::validity(store);
    let count = Store::<BareHost>::count(store);
    format!(in alloc; "{word} {validity} {count}")
}

fn open_text(alloc: Global, answer: Result<AnyStore, TreeFault>) -> Result<String, AllocError> {
    match answer {
        Ok(store) => store_text(alloc, &store),
        Err(fault) => fault_text(alloc, fault),
    }
}

fn put_listed(text: &mut String, listed: &Listed) -> Result<(), AllocError> {
    if !text.is_empty() {
        text.push(',')?;
    }
    if listed.directory {
        text.push('(')?;
        text.push_str(listed.name.as_str())?;
        return text.push(')');
    }
    text.push_str(listed.name.as_str())
}

// Names with commas between them, those that can't be selected in parentheses.
fn names_text(alloc: Global, names: &[Listed]) -> Result<String, AllocError> {
    if names.is_empty() {
        return String::from_str(alloc, "none");
    }
    let mut text = String::new(alloc);
    for listed in names {
        put_listed(&mut text, listed)?;
    }
    Ok(text)
}

fn list_text(alloc: Global, answer: Result<Vec<Listed>, TreeFault>) -> Result<String, AllocError> {
    match answer {
        Ok(names) => names_text(alloc, names.as_slice()),
        Err(fault) => fault_text(alloc, fault),
    }
}

fn bad_name(alloc: Global) -> Result<String, AllocError> {
    fault_text(alloc, TreeFault::BadName)
}

// The file of the subscribed names, with commas in the place of line feeds.
fn subscribed_text(alloc: Global, host: &BareHost) -> Result<String, AllocError> {
    let mut text = String::new(alloc);
    for byte in host.file("/m/.mailboxlist").unwrap_or(&[]) {
        text.push(if *byte == b'\n' {
            ','
        } else {
            char::from(*byte)
        })?;
    }
    Ok(text)
}

// ---- Calls

// What stands before the first space, and what behind it.
fn word(text: &str) -> (&str, &str) {
    text.split_once(' ').unwrap_or((text, ""))
}

// `""` is no byte.
fn argument(word: &str) -> &[u8] {
    if word == "\"\"" {
        return &[];
    }
    word.as_bytes()
}

// A name of a driver that stands makes a mailbox, and with a slash at its end a directory.
fn create_call(alloc: Global, host: &mut BareHost, text: &str) -> Result<String, AllocError> {
    let Some(target) = Target::read(alloc, text.as_bytes())? else {
        return bad_name(alloc);
    };
    if target.directory {
        let made = create_dir::<BareHost, AnyStore>(alloc, host, ROOT, &target.name);
        return done_text(alloc, made);
    }
    make_mailbox(alloc, host, &target)
}

fn make_mailbox(alloc: Global, host: &mut BareHost, target: &Target) -> Result<String, AllocError> {
    if !is_known(target.driver) {
        return String::from_str(alloc, "another driver");
    }
    match create::<BareHost, AnyStore>(alloc, host, ROOT, &target.name, target.driver, 18) {
        Ok(_) => String::from_str(alloc, "done"),
        Err(fault) => fault_text(alloc, fault),
    }
}

fn open_call(alloc: Global, host: &mut BareHost, text: &str) -> Result<String, AllocError> {
    let Some(name) = Name::read(alloc, text.as_bytes())? else {
        return bad_name(alloc);
    };
    open_text(
        alloc,
        open::<BareHost, AnyStore>(alloc, host, ROOT, &name, 77),
    )
}

// The second name is the selected one, where there is one.
fn delete_call(alloc: Global, host: &mut BareHost, text: &str) -> Result<String, AllocError> {
    let (first, second) = word(text);
    let Some(name) = Name::read(alloc, first.as_bytes())? else {
        return bad_name(alloc);
    };
    let selected = Name::read(alloc, second.as_bytes())?;
    let answer = delete::<BareHost, AnyStore>(alloc, host, ROOT, &name, selected.as_ref());
    done_text(alloc, answer)
}

// The third name is the selected one, where there is one.
fn rename_call(alloc: Global, host: &mut BareHost, text: &str) -> Result<String, AllocError> {
    let (first, rest) = word(text);
    let (second, third) = word(rest);
    let Some(from) = Name::read(alloc, first.as_bytes())? else {
        return bad_name(alloc);
    };
    let Some(to) = Name::read(alloc, second.as_bytes())? else {
        return bad_name(alloc);
    };
    let selected = Name::read(alloc, third.as_bytes())?;
    let answer = rename::<BareHost, AnyStore>(alloc, host, ROOT, &from, &to, selected.as_ref());
    done_text(alloc, answer)
}

fn subscribe_call(alloc: Global, host: &mut BareHost, text: &str) -> Result<String, AllocError> {
    let Some(name) = Name::read(alloc, text.as_bytes())? else {
        return bad_name(alloc);
    };
    done_text(
        alloc,
        subscribe::<BareHost, AnyStore>(alloc, host, ROOT, &name),
    )
}

fn unsubscribe_call(alloc: Global, host: &mut BareHost, text: &str) -> Result<String, AllocError> {
    let Some(name) = Name::read(alloc, text.as_bytes())? else {
        return bad_name(alloc);
    };
    done_text(
        alloc,
        unsubscribe::<BareHost, AnyStore>(alloc, host, ROOT, &name),
    )
}

fn lsub_call(alloc: Global, host: &mut BareHost, text: &str) -> Result<String, AllocError> {
    let (reference, pattern) = word(text);
    let names = lsub::<BareHost, AnyStore>(
        alloc,
        host,
        ROOT,
        argument(reference),
        argument(pattern),
    );
    list_text(alloc, names)
}

fn list_call(alloc: Global, host: &mut BareHost, text: &str) -> Result<String, AllocError> {
    let (reference, pattern) = word(text);
    let names = list::<BareHost, AnyStore>(
        alloc,
        host,
        ROOT,
        argument(reference),
        argument(pattern),
    );
    list_text(alloc, names)
}

/// Makes one call, and shows its answer.
pub(crate) fn call(alloc: Global, host: &mut BareHost, text: &str) -> Result<String, Fail> {
    let (verb, rest) = word(text);
    let answer = match verb {
        "create" => create_call(alloc, host, rest),
        "open" => open_call(alloc, host, rest),
        "delete" => delete_call(alloc, host, rest),
        "rename" => rename_call(alloc, host, rest),
        "subscribe" => subscribe_call(alloc, host, rest),
        "unsubscribe" => unsubscribe_call(alloc, host, rest),
        "lsub" => lsub_call(alloc, host, rest),
        "list" => list_call(alloc, host, rest),
        "subscribed" => subscribed_text(alloc, host),
        _ => return Err(Fail::new("an unknown call")),
    };
    Ok(answer?)
}
