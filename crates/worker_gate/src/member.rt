// One of a crew.
use crate::report::Report;
use race_table::Pass;

/// A worker's pass and the reports of its tickets.
#[derive(Drop)]
pub struct Worker {
    pub pass: Pass,
    pub reports: Vec<Report>,
}
