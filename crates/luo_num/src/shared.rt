// Threads may share texts, lists and the answer for want of memory.
use crate::{Items, NoMemory, Text};

fn shared<T: Send + Sync>() {}

fn all_are_shared() {
    shared::<Text>();
    shared::<Items<Text>>();
    shared::<NoMemory>();
}
