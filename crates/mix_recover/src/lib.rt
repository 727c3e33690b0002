//! What a mix directory means: its metadata, its index, its status and its data files together.
//!
//! `means` reads the three texts and the heads of all records, and no message text. Where the index is
//! missing or isn't accepted, the listing is rebuilt from the data files: of each UID the record of the
//! greatest file number, and there of the greatest place. What was read is put together by
//! `read_together`, which knows no host. Stands on `mix_files`, `mix_index` and `mix_data` for the files.
#![tactic(auto)]

mod accepting;
mod directory;
mod faults;
mod meaning;
mod numbers;
mod rebuilding;
mod scans;
mod texts;

pub use accepting::is_accepted;
pub use directory::means;
pub use faults::MeansFault;
pub use meaning::{Meaning, Texts, read_together};
pub use rebuilding::rebuild;
pub use scans::FileScan;
