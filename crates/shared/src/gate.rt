//! What is called before each call of a script.

/// Called by `run_scripts` on the thread of a script, without the lock, before each of its calls.
pub trait Gate {
    /// `script` and `call` are counted from 1.
    fn before(&self, script: usize, call: usize);
}

/// A gate that returns at once.
pub struct NoGate;

impl Gate for NoGate {
    fn before(&self, _script: usize, _call: usize) {}
}
