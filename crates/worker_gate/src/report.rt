// What became of a ticket.
use lists::List;
use race_table::JobStop;

/// How the work on a ticket ended.
#[derive(Clone, Copy, Debug, PartialEq, Eq)]
pub enum End {
    /// The stratum was won, and the book has the work.
    Joined,
    /// This seat has won the stratum.
    Withdrawn(u32),
    /// The job stopped.
    GaveUp(JobStop),
    /// The stratum was won, and the book has not taken the work.
    Strange,
}

/// What became of a ticket: the ticket, the seat that drew it, and how the work on it ended.
#[derive(Clone, Copy, Debug, PartialEq, Eq)]
pub struct Report {
    pub ticket: u32,
    pub seat: u32,
    pub end: End,
}

/// The reports of a race, one for each ticket.
pub type Reports = List<Report>;
