//! Rows of symbols of search trees, with a text beside each cut that has its reasons.
#![tactic(auto)]

mod kind;
mod rest;
mod row;
mod text;

pub use kind::Kind;
pub use rest::Rest;
pub use row::Row;
