// The core of the race.
ghost use Rattle.std.specs.Prelude.{◌≡◌, ℕ, ◌+◌, ◌-◌, ◌*◌, ◌≤◌, ◌↔◌, IsTrue, IfOk, IfSome};
ghost use Rattle.race_core.specs.declared.machine.TheConstants.{MAX_SEATS, MAX_STRATA};
ghost use Rattle.race_core.specs.State.{initial, HasSizes, IsSeat, IsStratum, tickets, word, drawn_list, won_list, is_told_spent};
ghost use Rattle.race_core.specs.Sound.{Sound};
ghost use Rattle.race_core.specs.Runs.{IsStep, IsReplay};

use crate::event::Event;
use crate::parts::Parts;
use lists::NoMemory;
use std::alloc::Global;
use std::marker::Model;

/// The most strata of a race.
pub const MAX_STRATA: u32 = 256;

/// The most seats of a race: the caller's and those of sixteen workers.
pub const MAX_SEATS: u32 = 17;

/// The state of a race: the numbers of strata and seats, a count of draws, a word for each stratum,
/// for each seat what it drew and won and whether it was told that the tickets are spent, and the
/// list of joins. There are `2 * strata` tickets, numbered from 0.
#[derive(Drop)]
pub struct Core {
    parts: Parts,
}

impl Model for Core {
    ghost use Rattle.race_core.specs.State.{State};

    ghost Value = { State };

    ghost use Rattle.race_core.specs.Parts.{state_of};
    ghost use Rattle.race_core.specs.Sound.{IsRaceState};

    ghost view = { λ core. state_of core.parts };

    ghost invariant = { λ core. IsRaceState (state_of core.parts) };
}

/// The state before the first event: the count is 0, all words are 0 and all lists are empty. There
/// are at most 256 strata and 1 to 17 seats. `NoMemory` comes where no memory is to be had.
pub fn start(alloc: Global, strata: u32, seats: u32) -> Result<Core, NoMemory>
    requires strata { strata ≤ MAX_STRATA }
    requires seats { (1 ≤ seats) × (seats ≤ MAX_SEATS) }
    ensures { IfOk result (λ core. core ≡ initial strata seats) }
{
    let parts = Parts::new(alloc, strata, seats)?;
    Ok(Core { parts })
}

/// The state after the event, or None exactly where the event is not allowed. It copies the state
/// once. `NoMemory` comes where no memory is to be had.
pub fn step(alloc: Global, core: &Core, event: Event) -> Result<Option<Core>, NoMemory>
    ensures step { IfOk result (λ answer. IsStep core.now event answer) }
    ensures sizes { IfOk result (λ answer. IfSome answer (HasSizes core.now.strata core.now.seats)) }
{
    if !core.parts.allows(event) {
        return Ok(None);
    }
    let mut parts = core.parts.copy(alloc)?;
    parts.apply(event)?;
    Ok(Some(Core { parts }))
}

/// The state after all events from the start, which is sound, or None exactly where some event is
/// not allowed in the state that those before it reach. There are at most 256 strata and 1 to 17
/// seats. `NoMemory` comes where no memory is to be had.
pub fn replay(
    alloc: Global,
    strata: u32,
    seats: u32,
    events: &[Event],
) -> Result<Option<Core>, NoMemory>
    requires strata { strata ≤ MAX_STRATA }
    requires seats { (1 ≤ seats) × (seats ≤ MAX_SEATS) }
    ensures replay { IfOk result (λ answer. IsReplay (initial strata seats) events.now answer) }
    ensures sizes { IfOk result (λ answer. IfSome answer (HasSizes strata seats)) }
{
    let mut parts = Parts::new(alloc, strata, seats)?;
    for event in events {
        if !parts.allows(*event) {
            return Ok(None);
        }
        parts.apply(*event)?;
    }
    Ok(Some(Core { parts }))
}

impl Core {
    /// The number of draw steps. Each drew a ticket or told a seat that the tickets are spent, so it
    /// is at most `2 * strata + seats`.
    pub fn count(&self) -> u64
        ensures count { result ≡ self.now.count }
        ensures bound { result ≤ tickets self.now + self.now.seats }
        ensures sound { Sound self.now }
    {
        self.parts.count
    }

    /// The word of the stratum: 0, or the seat that won it.
    pub fn word(&self, stratum: u32) -> u32
        requires { IsStratum self.now stratum }
        ensures { result ≡ word self.now stratum }
    {
        self.parts.words[(stratum - 1) as usize]
    }

    /// The tickets that the seat drew, in their order.
    pub fn drawn(&self, seat: u32) -> &[u32]
        requires { IsSeat self.now seat }
        ensures { result.now ≡ drawn_list self.now seat }
    {
        let list = &self.parts.drawn[(seat - 1) as usize];
        list.as_slice()
    }

    /// The strata that the seat won, in their order.
    pub fn won(&self, seat: u32) -> &[u32]
        requires { IsSeat self.now seat }
        ensures { result.now ≡ won_list self.now seat }
    {
        let list = &self.parts.won[(seat - 1) as usize];
        list.as_slice()
    }

    /// Whether the seat was told that the tickets are spent.
    pub fn is_spent(&self, seat: u32) -> bool
        requires { IsSeat self.now seat }
        ensures { IsTrue result ↔ IsTrue (is_told_spent self.now seat) }
    {
        self.parts.spent[(seat - 1) as usize]
    }

    /// The joins in their order, as pairs of a stratum and the seat that joined it.
    pub fn joined(&self) -> &[(u32, u32)]
        ensures { result.now ≡ self.now.joined }
    {
        self.parts.joined.as_slice()
    }
}
