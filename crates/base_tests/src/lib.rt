//! Tests of undo_base, undo_outside, seal_log and shelf: what only code reaches. That is calls that fail as listed, the images of
//! the honest disk, and exact values of calls that no conversation shows. They stand in a crate of their own, since a crate with
//! tests is proved twice.
#![tactic(auto)]

#[cfg(test)]
mod disks;
#[cfg(test)]
mod journals;
#[cfg(test)]
mod outside;
#[cfg(test)]
mod shelves;
#[cfg(test)]
mod words;
