// Threads may share what an audit answers.
use crate::{AuditError, Audited};

fn shared<T: Send + Sync>() {}

fn all_are_shared() {
    shared::<AuditError>();
    shared::<Audited>();
}
