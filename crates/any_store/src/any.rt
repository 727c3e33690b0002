// A mailbox of any driver that stands.
ghost use Rattle.any_store.specs.Stores.{all_forms, view_of};
ghost use Rattle.any_store.specs.Laws.{any_is_view, any_are_forms, any_reads, any_is_choice, any_knows, any_of_files};

use crate::AnyMailbox;
use crate::looking::{driver_at, look_for};
use crate::refusing::refuse;
use file_model::Files;
use mail_fields::Keyword;
use mail_types::{Driver, FlagChange, NewMessage};
use mbx_store::MbxStore;
use std::alloc::Global;
use store_trait::{Format, Info, OpenFault, Store, StoreFault};
use unix_layout::UnixStore;

/// A mailbox of any driver that stands.
#[derive(Drop)]
pub enum AnyStore {
    Unix(UnixStore),
    Mbx(MbxStore),
}

impl<F: Files> Store<F> for AnyStore {
    ghost view = { view_of };

    ghost forms = { all_forms };

    fn driver(&self) -> Driver {
        match self {
            AnyStore::Unix(store) => Store::<F>::driver(store),
            AnyStore::Mbx(store) => Store::<F>::driver(store),
        }
    }

    fn validity(&self) -> u32 {
        match self {
            AnyStore::Unix(store) => Store::<F>::validity(store),
            AnyStore::Mbx(store) => Store::<F>::validity(store),
        }
    }

    fn last(&self) -> u32 {
        match self {
            AnyStore::Unix(store) => Store::<F>::last(store),
            AnyStore::Mbx(store) => Store::<F>::last(store),
        }
    }

    fn words(&self) -> &[Keyword] {
        match self {
            AnyStore::Unix(store) => Store::<F>::words(store),
            AnyStore::Mbx(store) => Store::<F>::words(store),
        }
    }

    fn count(&self) -> usize {
        match self {
            AnyStore::Unix(store) => Store::<F>::count(store),
            AnyStore::Mbx(store) => Store::<F>::count(store),
        }
    }

    fn info(&self, place: usize) -> Info {
        match self {
            AnyStore::Unix(store) => Store::<F>::info(store, place),
            AnyStore::Mbx(store) => Store::<F>::info(store, place),
        }
    }

    fn text(
        &mut self,
        files: &mut F,
        place: usize,
        from: usize,
        buf: &mut [u8],
    ) -> Result<usize, StoreFault> {
        match self {
            AnyStore::Unix(store) => store.text(files, place, from, buf),
            AnyStore::Mbx(store) => store.text(files, place, from, buf),
        }
    }

    fn append(
        &mut self,
        files: &mut F,
        new: &[NewMessage],
        words: &[Keyword],
    ) -> Result<(), StoreFault> {
        match self {
            AnyStore::Unix(store) => store.append(files, new, words),
            AnyStore::Mbx(store) => store.append(files, new, words),
        }
    }

    fn set_flags(
        &mut self,
        files: &mut F,
        changes: &[FlagChange],
        words: &[Keyword],
    ) -> Result<(), StoreFault> {
        match self {
            AnyStore::Unix(store) => store.set_flags(files, changes, words),
            AnyStore::Mbx(store) => store.set_flags(files, changes, words),
        }
    }

    fn expunge(&mut self, files: &mut F, places: &[usize]) -> Result<(), StoreFault> {
        match self {
            AnyStore::Unix(store) => store.expunge(files, places),
            AnyStore::Mbx(store) => store.expunge(files, places),
        }
    }

    ghost is_view = { any_is_view };

    ghost are_forms = { any_are_forms };
}

impl<F: Files> AnyMailbox<F> for AnyStore {
    // no number of bytes is promised for mix, which doesn't stand
    ghost enough = { λ path image n. ⊥ };

    fn open(
        alloc: Global,
        files: &mut F,
        path: &str,
        fresh: u32,
    ) -> Result<Option<AnyStore>, OpenFault> {
        let driver = match look_for(alloc, files, path)? {
            Some(driver) => driver,
            None => return Ok(None),
        };
        match driver {
            Driver::Unix => match <UnixStore as Format<F>>::open(alloc, files, path, fresh) {
                Ok(store) => Ok(Some(AnyStore::Unix(store))),
                Err(fault) => Err(fault),
            },
            Driver::Mbx => match <MbxStore as Format<F>>::open(alloc, files, path, fresh) {
                Ok(store) => Ok(Some(AnyStore::Mbx(store))),
                Err(fault) => Err(fault),
            },
            driver => match refuse(alloc, files, path, driver) {
                Ok(store) => Ok(Some(store)),
                Err(fault) => Err(fault),
            },
        }
    }

    fn create(
        alloc: Global,
        files: &mut F,
        path: &str,
        driver: Driver,
        fresh: u32,
    ) -> Result<AnyStore, StoreFault> {
        match driver {
            Driver::Unix => match <UnixStore as Format<F>>::create(alloc, files, path, fresh) {
                Ok(store) => Ok(AnyStore::Unix(store)),
                Err(fault) => Err(fault),
            },
            Driver::Mbx => match <MbxStore as Format<F>>::create(alloc, files, path, fresh) {
                Ok(store) => Ok(AnyStore::Mbx(store)),
                Err(fault) => Err(fault),
            },
            _ => unreachable!(),
        }
    }

    fn remove(alloc: Global, files: &mut F, path: &str, driver: Driver) -> Result<(), StoreFault> {
        match driver {
            Driver::Unix => <UnixStore as Format<F>>::remove(alloc, files, path),
            Driver::Mbx => <MbxStore as Format<F>>::remove(alloc, files, path),
            _ => unreachable!(),
        }
    }

    fn driver_at(alloc: Global, files: &mut F, path: &str) -> Result<Option<Driver>, StoreFault> {
        driver_at(alloc, files, path)
    }

    ghost all_read = { any_reads };

    ghost is_choice = { any_is_choice };

    ghost knows_standing = { any_knows };

    ghost of_files = { any_of_files };
}
