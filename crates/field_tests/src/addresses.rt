//! Field bodies and the addresses that they list.
use crate::shown::count_text;
use addr_list::{Address, addresses};
use mail_fields::Bytes;
use std::alloc::{AllocError, Global};
use std::test::Fail;
use test_tables::rows;

// A body and its addresses: `name|route|local|host;` for a mailbox, where `-` is none, and `name{` and
// `}` for the ends of a group. What is outside the grammar is `none`.
const LISTS: &str = r#"
\e => \e
 \t \e => \e
,, , => \e
ann@example.org => -|-|ann|example.org;
Ann Lee <ann@example.org> => Ann Lee|-|ann|example.org;
bob@example.org, "Lee, Cy" <cy@example.org> => -|-|bob|example.org;Lee, Cy|-|cy|example.org;
<ann@example.org> => -|-|ann|example.org;
ann => -|-|ann|;
"an n" => -|-|an n|;
a@b,,c@d, => -|-|a|b;-|-|c|d;
# groups
Friends: ann@example.org; => Friends{-|-|ann|example.org;}
undisclosed-recipients:; => undisclosed-recipients{}
A B : , a@b ,; , c => A B{-|-|a|b;}-|-|c|;
A: B: a@b;, c@d; => A{B{-|-|a|b;}-|-|c|d;}
A:;; => none
A: a@b => none
a@b; => none
A:; b@c => none
a@b A:; => none
:; => none
# names
John Q. Public <j@x> => John Q. Public|-|j|x;
J.R.R. Tolkien <j@x> => J.R.R. Tolkien|-|j|x;
"A"B."C" <j@x> => A B. C|-|j|x;
A  (c)\tB <j@x> => A B|-|j|x;
"" <j@x> => |-|j|x;
"a\\"b\\\\c\\d" <j@x> => a"b\\cd|-|j|x;
=?utf-8?q?J=C3=B6rg?= <j@x> => =?utf-8?q?J=C3=B6rg?=|-|j|x;
J\xc3\xb6rg <j@x> => J\xc3\xb6rg|-|j|x;
a@b <j@x> => none
# routes
<@a:b@c> => -|@a|b|c;
N <@a , @ b.c(d):e@f> => N|@a,@b.c|e|f;
<@a,b:c@d> => none
<@a,,@b:c@d> => none
<@a@b> => none
# local parts and hosts
"a\\ b"@c => -|-|a b|c;
a . b (c) .d@e. f => -|-|a.b.d|e.f;
.a..b.@. => -|-|.a..b.|.;
a@[10.0.0.1] => -|-|a|[10.0.0.1];
a@[x y\\] \e => -|-|a|[x y\\];
a@b@c => none
Bob Smith => none
a b@c => none
a@b c => none
"a".b@c => none
a."b"@c => none
a@[b].c => none
a@"b" => none
@b => none
a@ => none
<a> => none
<> => none
<a@b => none
a@b> => none
# comments and strings
(a(b\\)c)d)a(e)@(f)b(g) => -|-|a|b;
a@b (c => none
a@b ) => none
"a@b => none
a@b\r\n => none
"#;

fn show(shown: &mut Vec<u8>, part: &Option<Bytes>) -> Result<(), AllocError> {
    match part {
        Some(bytes) => shown.extend_from_slice(bytes.as_slice())?,
        None => shown.push(b'-')?,
    }
    shown.push(b'|')?;
    Ok(())
}

fn show_address(shown: &mut Vec<u8>, address: &Address) -> Result<(), AllocError> {
    match address {
        Address::Mailbox {
            name,
            route,
            local,
            host,
        } => {
            show(shown, name)?;
            show(shown, route)?;
            shown.extend_from_slice(local.as_slice())?;
            shown.push(b'|')?;
            shown.extend_from_slice(host.as_slice())?;
            shown.push(b';')?;
        }
        Address::GroupStart(name) => {
            shown.extend_from_slice(name.as_slice())?;
            shown.push(b'{')?;
        }
        Address::GroupEnd => shown.push(b'}')?,
    }
    Ok(())
}

fn shown(alloc: Global, value: &[u8]) -> Result<Vec<u8>, AllocError> {
    let mut shown = Vec::new(alloc);
    match addresses(alloc, value)? {
        Some(list) => {
            for address in &list {
                show_address(&mut shown, address)?;
            }
        }
        None => shown.extend_from_slice(b"none")?,
    }
    Ok(shown)
}

#[test]
fn addresses_of_field_bodies(rt: HostRuntime) -> Result<(), Fail> {
    for row in &rows(rt.alloc(), LISTS)? {
        let found = shown(rt.alloc(), row.text.as_slice())?;
        row.agrees(found.as_slice())?;
    }
    Ok(())
}

// Long and deep bodies, and how many addresses they have.
const LONG: &str = r#"
\(10000:(\)\(10000:)\)a@b => 1
\(10000:(\)\(9999:)\)a@b => none
\(10000:g:\)\(10000:;\) => 20000
\(10000:g:\)\(9999:;\) => none
\(1048576:,\) => 0
\(100000:a@b,\) => 100000
\(524288:a \) => none
\(1048576:<\) => none
\(1048577:"\) => none
\(1048576:[\) => none
"#;

#[test]
fn long_and_deep_bodies_end(rt: HostRuntime) -> Result<(), Fail> {
    for row in &rows(rt.alloc(), LONG)? {
        let found = addresses(rt.alloc(), row.text.as_slice())?;
        let found = count_text(rt.alloc(), found.map(|list| list.len()))?;
        row.agrees(found.as_bytes())?;
    }
    Ok(())
}
