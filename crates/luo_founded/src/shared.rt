// Threads may share what is known of a program.
use crate::{NotFounded, Ranks};

fn shared<T: Send + Sync>() {}

fn all_are_shared() {
    shared::<Ranks<'static>>();
    shared::<NotFounded>();
}
