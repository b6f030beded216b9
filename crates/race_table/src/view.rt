// What a pass knows.
use std::collections::LinkedList;

/// What a pass knows of its table. No value of it is made: contracts alone read it.
///
/// The pass stands for the seats `first` to `first + parts - 1`. The pairs of `drawn` are a ticket and
/// the seat that drew it, those of `won` a stratum and the seat that won it, and those of `told` a
/// stratum and the seat that a look or a lost win named. `spent` has the seats that were told that
/// the tickets are spent.
pub struct View {
    pub strata: u64,
    pub seats: u64,
    pub first: u64,
    pub parts: u64,
    pub drawn: LinkedList<(u64, u64)>,
    pub won: LinkedList<(u64, u64)>,
    pub told: LinkedList<(u64, u64)>,
    pub spent: LinkedList<u64>,
}

/// How many strata and seats a table has.
#[derive(Drop)]
pub struct Sizes {
    pub strata: u64,
    pub seats: u64,
}
