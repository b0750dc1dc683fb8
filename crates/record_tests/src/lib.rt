//! Tests of verb_bytes: records of each kind, byte for byte, the places of texts, and what is read around them. They are of cycles, of a withdrawal, of snapshots, of a
//! filter's scope and of an upgrade, and of what is kept where the past was cut off. They stand in a crate of their own, since a crate with tests is
//! proved twice.
#![tactic(auto)]

#[cfg(test)]
mod holes;
#[cfg(test)]
mod kept;
#[cfg(test)]
mod lying;
#[cfg(test)]
mod spellings;
