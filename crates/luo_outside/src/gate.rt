// What a worker passes before its piece of the work.

/// A place that each worker passes once, with the number of its piece, before it begins with it.
pub trait Gate: Sync {
    fn pass(&self, piece: usize);
}

/// A gate that lets everyone through at once.
#[derive(Clone, Copy, Debug, Default)]
pub struct OpenGate;

impl Gate for OpenGate {
    fn pass(&self, _piece: usize) {}
}
