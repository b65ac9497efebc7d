// What is called before each entry is applied.

/// What is called before each entry is applied, as a test does that wants to see two services meet.
pub trait Gate: Drop {
    /// A service is about to apply the entry at this index.
    fn pass(&self, service: u8, index: u64);
}

/// The gate that does nothing.
#[derive(Clone, Copy, Debug)]
pub struct NoGate;

impl Gate for NoGate {
    fn pass(&self, _service: u8, _index: u64) {}
}
