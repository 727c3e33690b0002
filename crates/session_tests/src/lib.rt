//! Runs of the top call `imapd` over a bare host in memory, as tables.
//!
//! What the clauses of the top call say is proved there. The rows here tie the definitions that it cites to examples, and
//! show that the call succeeds with ample memory.
#![tactic(auto)]

#[cfg(test)]
mod adding;
#[cfg(test)]
mod copying;
#[cfg(test)]
mod failing_calls;
#[cfg(test)]
mod limits;
#[cfg(test)]
mod messages;
#[cfg(test)]
mod names;
#[cfg(test)]
mod pairs;
#[cfg(test)]
mod replies;
#[cfg(test)]
mod run;
#[cfg(test)]
mod searching;
#[cfg(test)]
mod streams;
#[cfg(test)]
mod words;
