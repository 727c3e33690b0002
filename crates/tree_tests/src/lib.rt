//! Names of mailboxes, and runs of calls on the tree over a host in memory, as tables: what each call answers, and what stands then.
#![tactic(auto)]

#[cfg(test)]
mod calls;
#[cfg(test)]
mod disk;
#[cfg(test)]
mod failing;
#[cfg(test)]
mod lists;
#[cfg(test)]
mod names;
#[cfg(test)]
mod runs;
