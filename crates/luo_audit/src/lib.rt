//! The audit: several workers walk the structures of a node and a size, and find the totals again.
#![tactic(auto)]

mod auditing;
pub mod laws;
mod piece;
mod shared;

pub use auditing::{AuditError, Audited, audit};
