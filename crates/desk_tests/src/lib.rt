//! Tests of a desk over a disk whose calls fail: what no conversation shows is what a desk that was closed still answers. They
//! have a crate of their own, since a crate with tests is proved twice.
//!
//! `desks` starts desks over disks in memory; `asks` and `cycles` ask them, also to take a cycle back, and `answers` has what they answer as
//! numbers. `courses` takes a desk through steps. `failing` has the tables of calls that fail, `upgrading` those of the upgrade, and
//! `levels`, with the gates of `gates`, those of what a cycle's workers pass. `counting` has what a cycle leaves of the step counter, which
//! has no bytes: a function whose contract says it.
#![tactic(auto)]

#[cfg(test)]
mod answers;
#[cfg(test)]
mod asks;
mod counting;
#[cfg(test)]
mod courses;
#[cfg(test)]
mod cycles;
#[cfg(test)]
mod desks;
#[cfg(test)]
mod failing;
#[cfg(test)]
mod gates;
#[cfg(test)]
mod levels;
#[cfg(test)]
mod upgrading;

pub use counting::snapped_and_cycled;
