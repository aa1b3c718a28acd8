// The commands from a program on, each a chain of steps.
mod analyse;
mod audit;
mod list;
mod run;
mod sample;

pub use analyse::analyse_program;
pub use audit::audit_program;
pub use list::list_named;
pub use run::run_named;
pub use sample::sample_of;
