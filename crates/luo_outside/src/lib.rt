//! Files, sinks and gates as traits, with their kinds in memory and over the host.
#![tactic(auto)]

mod calls;
mod faults;
mod gate;
mod host;
mod mem_files;
mod mem_sink;
mod reading;
mod sending;
mod sure;
mod traits;

pub use faults::{Failed, ReadError, WriteFault};
pub use gate::{Gate, OpenGate};
pub use host::{HostFiles, HostSink};
pub use mem_files::MemFiles;
pub use mem_sink::MemSink;
pub use reading::read_all;
pub use sending::send;
pub use sure::{SureFiles, SureSink};
pub use traits::{Files, Sink};
