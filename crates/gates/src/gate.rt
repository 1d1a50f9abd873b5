//! Gates.

/// A gate that each piece of a work passes once, before its first step. No clause speaks of it: a test's gate shows that
/// pieces run side by side.
pub trait Gate {
    /// Lets the piece of this number pass, once it returns.
    fn pass(&self, piece: usize);
}

/// A gate that is open.
pub struct OpenGate;

impl Gate for OpenGate {
    fn pass(&self, _piece: usize) {}
}
