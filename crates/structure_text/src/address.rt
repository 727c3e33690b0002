// The addresses of a field (RFC 3501, section 7.4.2).
ghost use Rattle.std.specs.Prelude.{◌≡◌, ◌++◌, OnOk};
ghost use Rattle.structure_text.specs.Strings.{string_text, nstring_text, nil, listed};
ghost use Rattle.structure_text.specs.Envelopes.{address_text, addresses_text};
ghost use Rattle.addr_list.specs.declared.address.Address.TheVariants.{Mailbox, GroupStart};

use crate::string::{put_next_nstring, put_next_string, put_nil, put_nstring, put_string};
use addr_list::Address;
use mail_fields::Bytes;
use std::alloc::AllocError;

#[tactic(auto, using(crate::proofs::Lists::four_values))]
fn put_mailbox(
    out: &mut Vec<u8>,
    name: &Option<Bytes>,
    route: &Option<Bytes>,
    local: &Bytes,
    host: &Bytes,
) -> Result<(), AllocError>
    ensures { OnOk result (out.new.items ≡ out.old.items ++ address_text (Mailbox name.now route.now local.now host.now)) }
{
    out.push(b'(')?;
    put_nstring(out, name)?;
    put_next_nstring(out, route)?;
    put_next_string(out, local.as_slice())?;
    put_next_string(out, host.as_slice())?;
    out.extend_from_slice(b")")
}

fn put_group_start(out: &mut Vec<u8>, name: &Bytes) -> Result<(), AllocError>
    ensures { OnOk result (out.new.items ≡ out.old.items ++ address_text (GroupStart name.now)) }
{
    out.extend_from_slice(b"(NIL NIL ")?;
    put_string(out, name.as_slice())?;
    out.extend_from_slice(b" NIL)")
}

fn put_address(out: &mut Vec<u8>, address: &Address) -> Result<(), AllocError>
    ensures { OnOk result (out.new.items ≡ out.old.items ++ address_text address.now) }
{
    match address {
        Address::Mailbox {
            name,
            route,
            local,
            host,
        } => put_mailbox(out, name, route, local, host),
        Address::GroupStart(name) => put_group_start(out, name),
        Address::GroupEnd => out.extend_from_slice(b"(NIL NIL NIL NIL)"),
    }
}

/// Appends the addresses of a field, with nothing between them.
#[tactic(auto, unfolding(crate::specs::Envelopes::addresses_text))]
pub(crate) fn put_addresses(out: &mut Vec<u8>, addresses: &[Address]) -> Result<(), AllocError>
    ensures { OnOk result (out.new.items ≡ out.old.items ++ addresses_text addresses.now) }
{
    if addresses.is_empty() {
        return put_nil(out);
    }
    out.push(b'(')?;
    for address in addresses {
        put_address(out, address)?;
    }
    out.extend_from_slice(b")")
}
