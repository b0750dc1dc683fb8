//! The operator's console: what it answers.
//!
//! `reply` has a whole answer with its head (RFC 9112). `bodies` has the short bodies, `timeline`, `mailboxes` and `confs` those
//! that tell of the store, and `reports` those of cycles; `objects` and `text` what they are made of. What carries the crate: each call's bytes
//! are those of a definition over JSON data (RFC 8259), compact and with members in byte order.
#![tactic(auto)]

mod bodies;
mod confs;
mod mailboxes;
mod objects;
mod reply;
mod reports;
mod text;
mod timeline;

pub use bodies::{
    ErrorWord, StatusCounts, body_json, error_json, items_json, number_json, numbers_json,
    point_json, status_json, stopped_json, uncycled_json, upgraded_json,
};
pub use confs::conf_json;
pub use mailboxes::box_json;
pub use reply::render;
pub use reports::report_json;
pub use timeline::timeline_json;
