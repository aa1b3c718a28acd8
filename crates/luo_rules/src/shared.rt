// Threads may share a setting, and hand on what is said of it.
use crate::{Breach, Meaning, Names, Rule, Setting, Signature, Stop, Variable};

fn shared<T: Send + Sync>() {}

fn all_are_shared() {
    shared::<Meaning>();
    shared::<Names>();
    shared::<Rule>();
    shared::<Breach>();
    shared::<Stop>();
    shared::<Setting>();
    shared::<Signature>();
    shared::<Variable>();
}
