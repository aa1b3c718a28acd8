//! Structures: their sizes, their order, whether they belong to a node, and their texts.
#![tactic(auto)]

mod comparing;
mod labelling;
mod labels;
pub mod laws;
mod members;
mod structure;
mod text;

pub use comparing::order;
pub use labelling::whole;
pub use members::member;
pub use structure::Structure;
pub use text::write_structure;
