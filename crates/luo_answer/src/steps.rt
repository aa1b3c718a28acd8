// The steps that commands share. Each answers the next thing, or a refusal.
mod auditing;
mod filling;
mod founding;
mod listing;
mod reporting;
mod size;
mod structure;

pub use auditing::few;
pub use filling::tables;
pub use founding::founded;
pub use listing::{counted, type_of};
pub use reporting::reported;
pub use size::{list_sized, sized, workers_of};
pub use structure::{procedure_of, structure_of};
