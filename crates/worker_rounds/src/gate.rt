//! Who is told when jobs begin and end.

/// Is told of each job of a round before it is answered and when it has been, by the thread that answers it.
pub trait Gate: Sync {
    /// The job of this number begins.
    fn begin(&self, job: usize);

    /// The job of this number is done, or has found no memory.
    fn done(&self, job: usize);
}

/// A gate that holds nobody up.
#[derive(Drop)]
pub struct OpenGate;

impl Gate for OpenGate {
    fn begin(&self, _: usize) {}

    fn done(&self, _: usize) {}
}
