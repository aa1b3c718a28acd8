// Threads may share what an arm stands for, and what it opens.
use crate::{Opened, Stand};

fn shared<T: Send + Sync>() {}

fn all_are_shared() {
    shared::<Stand>();
    shared::<Opened>();
}
