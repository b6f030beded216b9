// The table of the words.
ghost use Rattle.std.specs.Prelude.{◌≡◌, ℕ, ◌+◌, ◌*◌, ◌<◌, ◌≤◌, [], false, length, IfOk};
ghost use Rattle.race_core.specs.declared.machine.TheConstants.{MAX_SEATS, MAX_STRATA};
ghost use Rattle.race_table.specs.Rule.{Held};
ghost use Rattle.race_table.specs.Views.{view, drew, looked, tried, was_told, HasAll};
ghost use Rattle.race_table.specs.Answers.{IsFresh, IsTicket, IsLook, IsWin, IsClosed, Tells};

use crate::claim::{Look, OpenLook, Ticket, Win, Won};
use crate::pass::Pass;
use crate::view::{Sizes, View};
use atomic_table::{Play, Table, TableRule};
use lists::NoMemory;
use race_core::{sound_states_account, soundness_is_kept, start_is_sound};
use std::alloc::Global;

pub struct Fair;

impl TableRule<(), View, Sizes> for Fair {
    ghost holds = { λ sizes s. Held sizes.strata sizes.seats s.words s.views };

    ghost first = { λ sizes. view sizes.strata sizes.seats 1 sizes.seats [] [] [] [] };
}

struct Draws;

impl Play<(), View> for Draws {
    ghost then = { λ step me found after. (after ≡ (drew me.0 found, me.1)) × IsFresh me.0 found };
}

struct Looks;

impl Play<(), View> for Looks {
    ghost then = { λ step me found after. (after ≡ (looked me.0 step.word found, me.1)) × Tells me.0 step.word found };
}

struct Tries;

impl Play<(), View> for Tries {
    ghost then = { λ step me found after. (after ≡ (tried me.0 step.word found, me.1)) × Tells me.0 step.word found };
}

/// The words of a race: how many tickets were drawn, and for each stratum 0 or the seat that won it.
#[derive(Drop)]
pub struct RaceTable {
    pub(crate) table: Table<(), View, Sizes, Fair, Global>,
    strata: u32,
    ghost sizes: { (strata ≡ table.shared.key.strata) × (table.shared.table_id.words ≡ strata + 1) × (table.shared.table_id.slots ≡ 0) },
    ghost few: { (strata ≤ MAX_STRATA) × (table.shared.key.seats ≤ MAX_SEATS) },
}

impl RaceTable {
    ghost use Rattle.race_table.specs.Passes.{view_of, strata_of, BelongsTo};

    /// A table for at most 256 strata and 1 to 17 seats, whose words are 0, and the pass of all
    /// seats. `NoMemory` comes where no memory is to be had.
    pub fn new(alloc: Global, strata: u32, seats: u32) -> Result<(RaceTable, Pass), NoMemory>
        requires strata { strata ≤ MAX_STRATA }
        requires seats { (1 ≤ seats) × (seats ≤ MAX_SEATS) }
        ensures table { IfOk result (λ r. BelongsTo r.0 r.1) }
        ensures pass { IfOk result (λ r. view_of r.1 ≡ view strata seats 1 seats [] [] [] []) }
    {
        let Ok(words) = vec![in alloc; 0; strata as usize + 1] else {
            return Err(NoMemory);
        };
        start_is_sound();
        let sizes = Sizes {
            strata: strata as u64,
            seats: seats as u64,
        };
        let Ok((table, seat)) = Table::of_words(alloc, words.as_slice(), &sizes) else {
            return Err(NoMemory);
        };
        let table = RaceTable { table, strata };
        let pass = Pass {
            seat,
            number: 1,
            parts: seats,
            spent: false,
        };
        Ok((table, pass))
    }

    /// The number of strata, at most 256.
    pub fn strata(&self) -> u32
        ensures strata { result ≡ strata_of self.now }
        ensures few { result ≤ MAX_STRATA }
    {
        self.strata
    }

    /// Draws the next ticket for the pass's own number, one that the pass has not drawn. `Spent` comes
    /// where no ticket is left; then the pass is spent.
    pub fn draw(&self, pass: &mut Pass) -> Ticket
        requires table { BelongsTo self.now pass.old }
        requires unspent { was_told (view_of pass.old) ≡ false }
        ensures table { BelongsTo self.now pass.new }
        ensures ticket { IsTicket (view_of pass.old) result (view_of pass.new) }
    {
        soundness_is_kept();
        sound_states_account();
        let found = self.table.shared.fetch_add::<Draws>(&mut pass.seat, 0, 1);
        if found < 2 * self.strata as u64 {
            Ticket::Number(found as u32)
        } else {
            pass.spent = true;
            Ticket::Spent
        }
    }

    /// Looks whether the stratum, 1 to `strata`, is won.
    pub fn look(&self, pass: &mut Pass, stratum: u32) -> Look
        requires table { BelongsTo self.now pass.old }
        requires stratum { (1 ≤ stratum) × (stratum ≤ strata_of self.now) }
        ensures table { BelongsTo self.now pass.new }
        ensures look { IsLook (view_of pass.old) stratum result (view_of pass.new) }
    {
        let found = self
            .table
            .shared
            .load::<Looks>(&mut pass.seat, stratum as usize);
        if found == 0 {
            Look::Open(OpenLook::new(stratum))
        } else {
            Look::Taken(found as u32)
        }
    }

    /// Wins the stratum, 1 to `strata`, for the pass's own number, where no seat has won it.
    pub fn win(&self, pass: &mut Pass, stratum: u32) -> Win
        requires table { BelongsTo self.now pass.old }
        requires stratum { (1 ≤ stratum) × (stratum ≤ strata_of self.now) }
        ensures table { BelongsTo self.now pass.new }
        ensures win { IsWin (view_of pass.old) stratum result (view_of pass.new) }
    {
        soundness_is_kept();
        let number = pass.number;
        let shared = &self.table.shared;
        let word = stratum as usize;
        let before = shared.compare_exchange::<Tries>(&mut pass.seat, word, 0, number as u64);
        if before == 0 {
            Win::Won(Won::new(stratum, number))
        } else {
            Win::Lost(before as u32)
        }
    }

    /// Ends the race by the pass of all numbers: gives the number of draw steps and fills in the
    /// words, one for each stratum in order, each 0 or the seat that won it.
    pub fn close(self, pass: Pass, winners: &mut [u32]) -> u64
        requires table { BelongsTo self pass }
        requires all { HasAll (view_of pass) }
        requires room { length winners.old ≡ strata_of self }
        ensures { IsClosed (view_of pass) result winners.new }
    {
        let RaceTable { table, strata: _ } = self;
        let Pass {
            seat,
            number: _,
            parts: _,
            spent: _,
        } = pass;
        let closed = table.close_with(seat);
        for i in 0..winners.len() {
            winners[i] = closed.word(i + 1) as u32;
        }
        let total = closed.word(0);
        closed.free();
        total
    }
}
