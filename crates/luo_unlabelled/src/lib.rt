//! Unlabelled sequences, multisets and powersets counted size by size, and charges summed over them, in numbers alone.
#![tactic(auto)]

mod choices;
mod frame;
mod line;
mod line_walk;
mod numbers;
mod parts;
mod parts_walk;
mod plane;
mod sizes;
mod steps;
mod unbounded;
mod unbounded_walk;

pub use line::Line;
pub use line_walk::LineWalk;
pub use parts::Parts;
pub use parts_walk::PartsWalk;
pub use unbounded::Unbounded;
pub use unbounded_walk::UnboundedWalk;
