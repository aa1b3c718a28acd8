// Threads may share the tables of a program.
use crate::{Engine, Overflow};

fn shared<T: Send + Sync>() {}

fn all_are_shared() {
    shared::<Engine<'static>>();
    shared::<Overflow>();
}
