/// What each piece of parallel work passes as it begins.
pub trait Gate: Sync {
    /// Called once as a piece begins, with the piece's number. It changes nothing that a contract
    /// sees.
    fn enter(&self, piece: usize);
}

/// A gate that lets every piece pass at once.
#[derive(Clone, Copy, Debug, Default, PartialEq, Eq)]
pub struct OpenGate;

impl Gate for OpenGate {
    fn enter(&self, _piece: usize) {}
}

fn crosses<T: Send + Sync>() {}

/// An open gate may be lent to other threads, and moved into them.
pub fn gate_crosses() {
    crosses::<OpenGate>();
}
