//! A mailbox of any driver, by what stands at its path.
#![tactic(auto)]

mod any;
mod calls;
mod choice;
mod large;
mod looking;
mod refusing;

pub use any::AnyStore;
pub use calls::AnyMailbox;
pub use choice::{driver_of_front, is_known};
pub use large::has_long;
pub use looking::driver_at;
pub use refusing::refuse;
