//! Runs of the crates on texts, dates, fields and commands, as tables.
#![tactic(auto)]

#[cfg(test)]
mod addresses;
#[cfg(test)]
mod changed_texts;
#[cfg(test)]
mod dates;
#[cfg(test)]
mod declared;
#[cfg(test)]
mod forms_of_texts;
#[cfg(test)]
mod from_dates;
#[cfg(test)]
mod header_fields;
#[cfg(test)]
mod mailboxes;
#[cfg(test)]
mod message_parts;
#[cfg(test)]
mod mix_texts;
#[cfg(test)]
mod octal_heads;
#[cfg(test)]
mod openings;
#[cfg(test)]
mod shown;
#[cfg(test)]
mod status_fields;
#[cfg(test)]
mod structures;
