// The fields of a core, and what each event does to them.
ghost use Rattle.std.specs.Prelude.{◌≡◌, ℕ, ◌+◌, ◌-◌, ◌*◌, ◌<◌, ◌≤◌, ◌^◌, ◌↔◌, [], length, IsTrue, IfOk, OnOk, OnErr, true, false, slice_set, replicate};
ghost use Rattle.race_core.specs.State.{State, initial, IsShaped, IsSeat, IsStratum, word, is_told_spent, times_joined, tickets};
ghost use Rattle.race_core.specs.Moves.{Allows, next, added};
ghost use Rattle.race_core.specs.Parts.{state_of};

use crate::event::Event;
use lists::{List, NoMemory};
use std::alloc::Global;

/// The numbers and lists of a core.
#[derive(Drop)]
pub struct Parts {
    pub strata: u32,
    pub seats: u32,
    pub count: u64,
    pub words: Vec<u32>,
    pub drawn: Vec<List<u32>>,
    pub won: Vec<List<u32>>,
    pub spent: Vec<bool>,
    pub joined: Vec<(u32, u32)>,
}

// An empty list for each seat.
fn empty_lists(alloc: Global, seats: u32) -> Result<Vec<List<u32>>, NoMemory>
    ensures { IfOk result (λ lists. lists.items ≡ replicate seats []) }
{
    let mut lists = Vec::new(alloc);
    for _seat in 0..seats {
        if lists.push(List::new(alloc)).is_err() {
            return Err(NoMemory);
        }
    }
    Ok(lists)
}

fn copy_of_list(alloc: Global, list: &List<u32>) -> Result<List<u32>, NoMemory>
    ensures { IfOk result (λ copy. copy ≡ list.now) }
{
    match Vec::from_slice(alloc, list.as_slice()) {
        Ok(items) => Ok(List::of_vec(items)),
        Err(_) => Err(NoMemory),
    }
}

fn copy_of_lists(alloc: Global, lists: &[List<u32>]) -> Result<Vec<List<u32>>, NoMemory>
    ensures { IfOk result (λ copy. copy.items ≡ lists.now) }
{
    let mut copies = Vec::new(alloc);
    for list in lists {
        let copy = copy_of_list(alloc, list)?;
        if copies.push(copy).is_err() {
            return Err(NoMemory);
        }
    }
    Ok(copies)
}

// Adds the item to the list of the seat.
fn add(lists: &mut [List<u32>], seat: u32, item: u32) -> Result<(), NoMemory>
    requires { (1 ≤ seat) × (seat ≤ length lists.old) }
    ensures ok { OnOk result (lists.new ≡ added lists.old seat item) }
    ensures err { OnErr result (lists.new ≡ lists.old) }
{
    let list = &mut lists[(seat - 1) as usize];
    list.push(item)
}

impl Parts {
    pub fn new(alloc: Global, strata: u32, seats: u32) -> Result<Parts, NoMemory>
        ensures { IfOk result (λ parts. state_of parts ≡ initial strata seats) }
    {
        let Ok(words) = vec![in alloc; 0; strata as usize] else {
            return Err(NoMemory);
        };
        let Ok(spent) = vec![in alloc; false; seats as usize] else {
            return Err(NoMemory);
        };
        Ok(Parts {
            strata,
            seats,
            count: 0,
            words,
            drawn: empty_lists(alloc, seats)?,
            won: empty_lists(alloc, seats)?,
            spent,
            joined: Vec::new(alloc),
        })
    }

    pub fn copy(&self, alloc: Global) -> Result<Parts, NoMemory>
        ensures { IfOk result (λ copy. state_of copy ≡ state_of self.now) }
    {
        let Ok(words) = Vec::from_slice(alloc, self.words.as_slice()) else {
            return Err(NoMemory);
        };
        let Ok(spent) = Vec::from_slice(alloc, self.spent.as_slice()) else {
            return Err(NoMemory);
        };
        let Ok(joined) = Vec::from_slice(alloc, self.joined.as_slice()) else {
            return Err(NoMemory);
        };
        Ok(Parts {
            strata: self.strata,
            seats: self.seats,
            count: self.count,
            words,
            drawn: copy_of_lists(alloc, self.drawn.as_slice())?,
            won: copy_of_lists(alloc, self.won.as_slice())?,
            spent,
            joined,
        })
    }

    pub fn is_seat(&self, seat: u32) -> bool
        ensures { IsTrue result ↔ IsSeat (state_of self.now) seat }
    {
        1 <= seat && seat <= self.seats
    }

    pub fn is_stratum(&self, stratum: u32) -> bool
        ensures { IsTrue result ↔ IsStratum (state_of self.now) stratum }
    {
        1 <= stratum && stratum <= self.strata
    }

    // Whether the word of the stratum is `by`.
    pub fn is_word(&self, stratum: u32, by: u32) -> bool
        requires { IsShaped (state_of self.now) }
        ensures { IsTrue result ↔ (IsStratum (state_of self.now) stratum × (word (state_of self.now) stratum ≡ by)) }
    {
        self.is_stratum(stratum) && self.words[(stratum - 1) as usize] == by
    }

    pub fn is_joined(&self, stratum: u32) -> bool
        ensures { IsTrue result ↔ (0 < times_joined (state_of self.now) stratum) }
    {
        for pair in self.joined.iter() {
            if pair.0 == stratum {
                return true;
            }
        }
        false
    }

    pub fn can_draw(&self, seat: u32) -> bool
        requires { IsShaped (state_of self.now) }
        ensures { IsTrue result ↔ Allows (state_of self.now) (Event.Draw seat) }
    {
        self.is_seat(seat) && !self.spent[(seat - 1) as usize]
    }

    pub fn allows(&self, event: Event) -> bool
        requires { IsShaped (state_of self.now) }
        ensures { IsTrue result ↔ Allows (state_of self.now) event }
    {
        match event {
            Event::Draw { seat } => self.can_draw(seat),
            Event::LookOpen { seat, stratum } => self.is_seat(seat) && self.is_word(stratum, 0),
            Event::LookTaken { seat, stratum, by } => {
                self.is_seat(seat) && self.is_word(stratum, by) && by != 0
            }
            Event::Win { seat, stratum } => self.is_seat(seat) && self.is_word(stratum, 0),
            Event::Lose { seat, stratum, by } => {
                self.is_seat(seat) && self.is_word(stratum, by) && by != 0
            }
            Event::Join { seat, stratum } => {
                self.is_seat(seat) && self.is_word(stratum, seat) && !self.is_joined(stratum)
            }
        }
    }

    fn draw(&mut self, seat: u32) -> Result<(), NoMemory>
        requires shape { IsShaped (state_of self.old) }
        requires room { self.old.count < 2 ^ 32 }
        requires allowed { Allows (state_of self.old) (Event.Draw seat) }
        ensures ok { OnOk result (state_of self.new ≡ next (state_of self.old) (Event.Draw seat)) }
        ensures err { OnErr result (state_of self.new ≡ state_of self.old) }
    {
        if self.count < 2 * self.strata as u64 {
            add(self.drawn.as_mut_slice(), seat, self.count as u32)?;
        } else {
            self.spent[(seat - 1) as usize] = true;
        }
        self.count += 1;
        Ok(())
    }

    fn win(&mut self, seat: u32, stratum: u32) -> Result<(), NoMemory>
        requires shape { IsShaped (state_of self.old) }
        requires allowed { Allows (state_of self.old) (Event.Win seat stratum) }
        ensures ok { OnOk result (state_of self.new ≡ next (state_of self.old) (Event.Win seat stratum)) }
        ensures err { OnErr result (state_of self.new ≡ state_of self.old) }
    {
        add(self.won.as_mut_slice(), seat, stratum)?;
        self.words[(stratum - 1) as usize] = seat;
        Ok(())
    }

    fn join(&mut self, seat: u32, stratum: u32) -> Result<(), NoMemory>
        ensures ok { OnOk result (state_of self.new ≡ next (state_of self.old) (Event.Join seat stratum)) }
        ensures err { OnErr result (state_of self.new ≡ state_of self.old) }
    {
        match self.joined.push((stratum, seat)) {
            Ok(()) => Ok(()),
            Err(_) => Err(NoMemory),
        }
    }

    // Does what the event says, or leaves the state as it was where there is no memory.
    pub fn apply(&mut self, event: Event) -> Result<(), NoMemory>
        requires shape { IsShaped (state_of self.old) }
        requires room { self.old.count < 2 ^ 32 }
        requires allowed { Allows (state_of self.old) event }
        ensures ok { OnOk result (state_of self.new ≡ next (state_of self.old) event) }
        ensures err { OnErr result (state_of self.new ≡ state_of self.old) }
    {
        match event {
            Event::Draw { seat } => self.draw(seat),
            Event::Win { seat, stratum } => self.win(seat, stratum),
            Event::Join { seat, stratum } => self.join(seat, stratum),
            Event::LookOpen { .. } | Event::LookTaken { .. } | Event::Lose { .. } => Ok(()),
        }
    }
}
