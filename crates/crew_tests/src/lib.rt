//! Tests of replay_crew on threads: what no clause says is that the items of a level are worked out side by side, and that
//! each passes the gate. Its exact answers are compared too, met with ample memory.
//!
//! `given` has a house, its store and items, `gates` what the items pass, `levels` the tests of levels, `pairs` those
//! of pairs of items, and `trees` that of names in a hierarchy.
#![tactic(auto)]

#[cfg(test)]
mod gates;
#[cfg(test)]
mod given;
#[cfg(test)]
mod levels;
#[cfg(test)]
mod pairs;
#[cfg(test)]
mod trees;
