// A file that stays open for reading.
use std::alloc::Allocator;
use std::rt::Runtime;
use std::{fs, io};

/// An open file with its path. The path is None where no memory was left to keep it.
#[derive(Drop)]
pub(crate) struct Opened<F, A: Allocator> {
    file: F,
    path: Option<String<A>>,
}

impl<F: Drop, A: Allocator> Opened<F, A> {
    pub(crate) fn open<R: Runtime<File = F, A = A>>(
        rt: &R,
        path: &str,
    ) -> io::Result<Opened<F, A>> {
        let file = fs::open(rt, path)?;
        let path = String::from_str(rt.alloc(), path).ok();
        Ok(Opened { file, path })
    }

    pub(crate) fn is_at(&self, path: &str) -> bool {
        match &self.path {
            Some(kept) => kept.as_str() == path,
            None => false,
        }
    }

    pub(crate) fn file(&mut self) -> &mut F {
        &mut self.file
    }
}
