// What a store tells of its messages.
ghost use Rattle.std.specs.Prelude.{◌≡◌, ◌≤◌, length, IfOk};
ghost use Rattle.mail_types.specs.Limits.{record_limit};

use file_model::Files;
use std::alloc::{AllocError, Global};
use store_trait::{Info, Store};

/// The messages of a store, without their texts.
pub fn infos_of<F: Files, S: Store<F>>(alloc: Global, store: &S) -> Result<Vec<Info>, AllocError>
    ensures are { IfOk result (λ infos. infos.items ≡ (S.view store.now).summary.infos) }
    ensures few { IfOk result (λ infos. length infos.items ≤ record_limit) }
{
    let mut infos = Vec::new(alloc);
    for place in 0..Store::<F>::count(store) {
        infos.push(Store::<F>::info(store, place))?;
    }
    Ok(infos)
}
