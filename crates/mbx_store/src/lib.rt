//! The driver of mbx files: a store of one file, with the places of the records of an mbx file.
//!
//! A scan reads heads alone, and a change copies the texts of the file in one pass. Stands on `mbx_form` for the form of the
//! files and on `file_store` for the store.
#![tactic(auto)]

mod layout;
mod place;
mod plan;
mod scan;
mod writing;

pub use place::{MbxLayout, MbxPlace};

/// An open mbx file.
pub type MbxStore = file_store::FileStore<MbxLayout>;
