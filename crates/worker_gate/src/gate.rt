// What watches the workers.

/// What a worker has just done.
#[derive(Clone, Copy, Debug, PartialEq, Eq)]
pub enum GatePoint {
    /// It drew this ticket.
    Drawn(u32),
    /// It looked at this stratum.
    Looked(u32),
    /// It won this stratum, and has not taken the book's lock.
    Won(u32),
    /// It joined this stratum, and has let go of the book's lock.
    Joined(u32),
}

/// Watches the workers. No lock is held while it is called.
pub trait Gate {
    fn at(&self, point: GatePoint);
}
