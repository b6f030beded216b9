// What a seat does.

/// A step of one seat. Seats are numbered from 1, and so are strata.
#[derive(Clone, Copy, Debug)]
pub enum Event {
    /// The seat draws a ticket, or is told that the tickets are spent.
    Draw { seat: u32 },
    /// The seat looks at the word of the stratum and finds 0.
    LookOpen { seat: u32, stratum: u32 },
    /// The seat looks at the word of the stratum and finds the seat `by`.
    LookTaken { seat: u32, stratum: u32, by: u32 },
    /// The seat finds 0 in the word of the stratum and puts its own number there.
    Win { seat: u32, stratum: u32 },
    /// The seat tries to win the stratum and finds the seat `by`.
    Lose { seat: u32, stratum: u32, by: u32 },
    /// The seat joins the stratum, which it has won.
    Join { seat: u32, stratum: u32 },
}
