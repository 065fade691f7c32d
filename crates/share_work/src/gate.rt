//! What each worker calls as it begins a piece.

/// A place through which workers go, as for a test that holds one worker until another has come.
pub trait Gate {
    /// Called by a worker as it begins a piece of work. `phase` is the number that was given to `in_shares` (those of this program
    /// are in `phases`), and pieces are numbered from 0.
    fn enter(&self, phase: u8, piece: u64);
}

/// Lets every worker pass at once.
#[derive(Clone, Copy)]
pub struct NoGate;

impl Gate for NoGate {
    fn enter(&self, _phase: u8, _piece: u64) {}
}
