//! Tests of box_store, paradox, repair_desk, withdraw and console_http: calls that no conversation shows are called with ample memory, and
//! their answers compared.
#![tactic(auto)]

#[cfg(test)]
mod answers;
#[cfg(test)]
mod edits;
#[cfg(test)]
mod requests;
#[cfg(test)]
mod stores;
#[cfg(test)]
mod withdrawals;
