// What is told of a file that was opened.
ghost use Rattle.std.specs.Prelude.{◌≡◌, ◌≤◌, nat_lt, length, IfOk};
ghost use Rattle.std.specs.List.{list_any};
ghost use Rattle.mail_types.specs.Limits.{record_limit, text_limit};
ghost use Rattle.store_trait.specs.declared.store.Info.{Info};
ghost use Rattle.store_index.specs.Opened.{uids_told, infos_with, opened_summary};

use crate::Told;
use mail_fields::Keywords;
use mail_types::{TEXT_LIMIT, number_uids};
use std::alloc::{AllocError, Global};
use store_trait::Info;

/// What a file says, without the texts. A message without a UID has 0 there.
#[derive(Debug, Drop)]
pub struct Found {
    pub validity: Option<u32>,
    pub last: u32,
    pub words: Keywords,
    pub infos: Vec<Info>,
}

/// Whether a text is longer than 16 MiB.
pub fn has_large(infos: &[Info]) -> bool
    ensures { result ≡ list_any (λ (i : Info). nat_lt text_limit i.size) infos.now }
{
    infos.iter().any(|info| info.size as usize > TEXT_LIMIT)
}

fn uids_of(alloc: Global, infos: &[Info]) -> Result<Vec<u32>, AllocError>
    ensures { IfOk result (λ v. v.items ≡ uids_told infos.now) }
{
    let mut uids = Vec::new(alloc);
    for info in infos {
        uids.push(info.uid)?;
    }
    Ok(uids)
}

fn with_uid(info: Info, uid: u32) -> Info
    ensures { result ≡ record info { uid = uid } }
{
    Info { uid, ..info }
}

// The messages under these UIDs.
fn with_uids(alloc: Global, infos: &[Info], uids: &[u32]) -> Result<Vec<Info>, AllocError>
    requires { length uids.now ≡ length infos.now }
    ensures { IfOk result (λ v. v.items ≡ infos_with uids.now infos.now) }
{
    let mut numbered = Vec::new(alloc);
    for (place, info) in infos.iter().enumerate() {
        numbered.push(with_uid(*info, uids[place]))?;
    }
    Ok(numbered)
}

/// What a store that was opened tells, with a fresh UIDVALIDITY where the UIDs don't last.
#[tactic(auto, using(crate::proofs::ToldOpened::told_uids, crate::proofs::ToldOpened::with_count))]
pub fn opened(alloc: Global, found: Found, fresh: u32) -> Result<Told, AllocError>
    requires { length found.infos.items ≤ record_limit }
    ensures told { IfOk result (λ told. told ≡ opened_summary found fresh) }
    ensures many { IfOk result (λ told. length told.infos ≤ record_limit) }
{
    let mut uids = uids_of(alloc, found.infos.as_slice())?;
    let numbering = number_uids(found.validity, found.last, uids.as_mut_slice(), fresh);
    let infos = with_uids(alloc, found.infos.as_slice(), uids.as_slice())?;
    Ok(Told::of(numbering.validity, numbering.last, found.words, infos))
}
