// The commands, each a chain of steps.
mod analyse;
mod audit;
mod format;
mod list;
mod run;
mod sample;

pub use analyse::analyse_file;
pub use audit::audit_file;
pub use format::format_file;
pub use list::list_structures;
pub use run::run_procedure;
pub use sample::sample_summary;
