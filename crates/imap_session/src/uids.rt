// A set of UIDs.
ghost use Rattle.std.specs.Prelude.{◌≡◌, ◌++◌, ◌∷◌, [], ℕ, IfOk, OnOk, nat_eq};
ghost use Rattle.std.specs.List.{list_any};
ghost use Rattle.imap_session.specs.Told.{HasSame};

use indexmap::IndexSet;
use std::alloc::{AllocError, Global};
use std::marker::Model;

/// UIDs that are asked for one by one.
#[derive(Drop)]
pub struct Uids {
    set: IndexSet<u32>,
}

impl Model for Uids {
    ghost use Rattle.std.specs.Prelude.{List, ℕ};

    ghost Value = { List ℕ };

    ghost view = { λ uids. uids.set.keys };
}

impl Uids {
    pub fn of(alloc: Global, list: &[u32]) -> Result<Uids, AllocError>
        ensures { IfOk result (λ uids. HasSame uids list.now) }
    {
        let mut set = IndexSet::new(alloc);
        for uid in list {
            add(&mut set, *uid)?;
        }
        Ok(Uids { set })
    }

    pub fn has(&self, uid: u32) -> bool
        ensures { result ≡ list_any (nat_eq uid) self.now }
    {
        self.set.contains(&uid)
    }
}

fn add(set: &mut IndexSet<u32>, uid: u32) -> Result<(), AllocError>
    ensures { OnOk result ((other : ℕ) → list_any (nat_eq other) set.new.keys ≡ list_any (nat_eq other) (set.old.keys ++ uid ∷ [])) }
{
    match set.insert(uid) {
        Ok(_) => Ok(()),
        Err(_) => Err(AllocError),
    }
}
