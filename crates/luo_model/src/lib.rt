//! The checked program, the definitions over it, and laws that pin known facts to them.
#![tactic(auto)]

mod body;
mod counts;
pub mod laws;
mod program;
mod shared;
mod table;
mod value;

pub use body::{Arm, Bind, Body, Item};
pub use counts::Counts;
pub use program::{Def, Kind, Node, Part, Proc, Program, Shape, Site, Universe};
pub use table::{Entry, Fill, Row};
pub use value::{Made, Value, ValueArm};
