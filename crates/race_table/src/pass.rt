// A seat with its view.
ghost use Rattle.std.specs.Prelude.{◌≡◌, ℕ, ◌+◌, ◌<◌, ◌≤◌, [], false, length, nat_lt};

use crate::table::RaceTable;
use crate::view::View;
use atomic_table::{Join, Play, Seat, Split};

/// A range of seats' numbers, with what they know. Its own number is the first.
#[derive(Drop)]
pub struct Pass {
    pub(crate) seat: Seat<(), View>,
    pub(crate) number: u32,
    pub(crate) parts: u32,
    pub(crate) spent: bool,
    pub ghost first: { number ≡ seat.me.0.first },
    pub ghost size: { (parts ≡ seat.me.0.parts) × (0 < parts) },
    pub ghost few: { number + parts ≤ 18 },
    pub ghost told: { spent ≡ nat_lt 0 (length seat.me.0.spent) },
    pub ghost free: { seat.me.1 ≡ [] },
}

struct Cut;

impl Split<View> for Cut {
    ghost use Rattle.race_table.specs.Views.{front, back};

    ghost left = { front };

    ghost right = { back };
}

impl Join<View> for Cut {
    ghost use Rattle.race_table.specs.Views.{united, nobody};

    ghost both = { united };

    ghost spent = { nobody };
}

struct Learns;

impl Play<(), View> for Learns {
    ghost use Rattle.std.specs.Prelude.{◌≡◌};
    ghost use Rattle.race_table.specs.Answers.{Knows};

    ghost then = { λ step me found after. (after ≡ me) × Knows me.0 };
}

impl Pass {
    ghost use Rattle.race_table.specs.Views.{front, back, united, was_told};
    ghost use Rattle.race_table.specs.Answers.{Knows};
    ghost use Rattle.race_table.specs.Passes.{view_of, BelongsTo};

    /// The pass's own number, the first of its range.
    pub fn number(&self) -> u32
        ensures { result ≡ (view_of self.now).first }
    {
        self.number
    }

    /// How many numbers the range has.
    pub fn parts(&self) -> u32
        ensures { result ≡ (view_of self.now).parts }
    {
        self.parts
    }

    /// Whether one of the numbers was told that the tickets are spent.
    pub fn is_spent(&self) -> bool
        ensures { result ≡ was_told (view_of self.now) }
    {
        self.spent
    }

    /// Cuts the last number off a pass of at least 2 that is not spent and has drawn and won nothing.
    /// The new pass has that number and knows nothing; this one keeps the rest of the numbers and
    /// what it was told.
    pub fn split(&mut self, table: &RaceTable) -> Pass
        requires table { BelongsTo table.now self.old }
        requires parts { 2 ≤ (view_of self.old).parts }
        requires fresh { ((view_of self.old).drawn ≡ []) × ((view_of self.old).won ≡ []) × (was_told (view_of self.old) ≡ false) }
        ensures tables { BelongsTo table.now self.new × BelongsTo table.now result }
        ensures rest { view_of self.new ≡ front (view_of self.old) }
        ensures new { view_of result ≡ back (view_of self.old) }
    {
        let seat = table.table.shared.split_seat::<Cut>(&mut self.seat);
        self.parts -= 1;
        Pass {
            seat,
            number: self.number + self.parts,
            parts: 1,
            spent: false,
        }
    }

    /// Puts a pass behind this one, whose numbers follow this one's. The lists are joined. What this
    /// pass then knows is `Knows`: with all numbers, its won list holds every pair that it was told,
    /// and where it is spent, its drawn list has each ticket once.
    pub fn unite(&mut self, table: &RaceTable, other: Pass)
        requires table { BelongsTo table.now self.old }
        requires other { BelongsTo table.now other }
        requires follows { (view_of other).first ≡ (view_of self.old).first + (view_of self.old).parts }
        ensures table { BelongsTo table.now self.new }
        ensures whole { view_of self.new ≡ united (view_of self.old) (view_of other) }
        ensures knows { Knows (view_of self.new) }
    {
        let Pass {
            seat,
            number: _,
            parts,
            spent,
        } = other;
        table.table.shared.join_seat::<Cut>(&mut self.seat, seat);
        self.parts += parts;
        self.spent = self.spent || spent;
        table.table.shared.load::<Learns>(&mut self.seat, 0);
    }
}
