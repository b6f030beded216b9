// Races over jobs and books in memory.
ghost use Rattle.std.specs.Prelude.{◌≡◌, ℕ, ◌≤◌};

use super::*;
use lists::NoMemory;
use race_table::{BookOf, Job, JobStop, Jobs, Join, OpenLook, Progress, RaceTable, Won};
use std::alloc::Global;
use std::process::Abort;
use std::sync::atomic::{AtomicU32, Ordering};
use std::sync::{Mutex, Wait};
use std::test::Fail;
use std::thread::Threads;

// A job that needs so many enlargements.
#[derive(Drop)]
struct Counted {
    stratum: u32,
    left: u32,
    whole: bool,
}

impl Job for Counted {
    type Done = u32;

    ghost of_stratum = { λ j. j.stratum };

    ghost left = { λ j. j.left };

    ghost may_stop = { λ _ _. ⊥ };

    ghost is_whole = { λ j. j.whole };

    ghost is_done = { λ j done. done ≡ j.stratum };

    fn stratum(&self) -> u32 {
        self.stratum
    }

    fn enlarge(&mut self, look: OpenLook) -> Result<Progress<u32>, JobStop> {
        drop(look);
        if self.left > 0 {
            self.left -= 1;
            return Ok(Progress::More);
        }
        self.whole = true;
        Ok(Progress::Whole(self.stratum))
    }
}

// Jobs that need 3 enlargements, or 5 of the second kind.
#[derive(Drop)]
struct Even {
    strata: u32,
}

impl Jobs for Even {
    type Job = Counted;

    ghost strata = { λ jobs. jobs.strata };

    ghost may_stop = { λ _ _ _ _. ⊥ };

    fn start(&self, kind: u32, stratum: u32) -> Result<Counted, JobStop> {
        Ok(Counted {
            stratum,
            left: 2 + 2 * kind,
            whole: false,
        })
    }
}

// Jobs that stop at once for want of memory.
#[derive(Drop)]
struct Stopping {
    strata: u32,
}

impl Jobs for Stopping {
    ghost use Rattle.std.specs.Prelude.{◌≡◌};
    ghost use Rattle.race_table.specs.declared.jobs.JobStop.TheVariants.{Memory};

    type Job = Counted;

    ghost strata = { λ jobs. jobs.strata };

    ghost may_stop = { λ _ _ _ stop. stop ≡ Memory };

    fn start(&self, _kind: u32, _stratum: u32) -> Result<Counted, JobStop> {
        Err(JobStop::Memory)
    }
}

// A book that counts.
#[derive(Drop)]
struct Counting {
    joins: u32,
    settles: u32,
}

impl BookOf for Counting {
    type Done = u32;

    ghost may_be_strange = { ⊥ };

    fn join(&mut self, won: Won, _done: u32) -> Join<u32> {
        won.spend();
        self.joins = self.joins.saturating_add(1);
        Join::Kept
    }

    fn settle(&mut self) -> Result<bool, NoMemory> {
        self.settles = self.settles.saturating_add(1);
        Ok(true)
    }
}

// A book that knows no work.
#[derive(Drop)]
struct Foreign;

impl BookOf for Foreign {
    ghost use Rattle.std.specs.Prelude.{⊤};

    type Done = u32;

    ghost may_be_strange = { ⊤ };

    fn join(&mut self, won: Won, done: u32) -> Join<u32> {
        won.spend();
        Join::Stranger(done)
    }

    fn settle(&mut self) -> Result<bool, NoMemory> {
        Ok(false)
    }
}

#[derive(Drop)]
struct Silent;

impl Gate for Silent {
    fn at(&self, _point: GatePoint) {}
}

// A gate that counts.
#[derive(Drop)]
struct Tally {
    drawn: AtomicU32,
    looked: AtomicU32,
    won: AtomicU32,
    joined: AtomicU32,
}

impl Gate for Tally {
    fn at(&self, point: GatePoint) {
        match point {
            GatePoint::Drawn(_) => self.drawn.fetch_add(1, Ordering::SeqCst),
            GatePoint::Looked(_) => self.looked.fetch_add(1, Ordering::SeqCst),
            GatePoint::Won(_) => self.won.fetch_add(1, Ordering::SeqCst),
            GatePoint::Joined(_) => self.joined.fetch_add(1, Ordering::SeqCst),
        };
    }
}

// A gate that holds the first caller at Looked(2) until Won(2) was seen, or for so many turns, and notes whether it
// was seen.
#[derive(Drop)]
struct Holding {
    looked: AtomicU32,
    won: AtomicU32,
    released: AtomicU32,
}

impl Gate for Holding {
    fn at(&self, point: GatePoint) {
        match point {
            GatePoint::Won(2) => self.won.store(1, Ordering::SeqCst),
            GatePoint::Looked(2) => {
                if self.looked.fetch_add(1, Ordering::SeqCst) == 0 {
                    for _turn in 0..50_000_000u32 {
                        if self.won.load(Ordering::SeqCst) == 1 {
                            self.released.store(1, Ordering::SeqCst);
                            return;
                        }
                    }
                }
            }
            _ => {}
        }
    }
}

fn count(reports: &Reports, end: End) -> usize {
    reports
        .as_slice()
        .iter()
        .filter(|report| report.end == end)
        .count()
}

#[test]
fn every_stratum_is_joined_once(rt: HostRuntime) -> Result<(), Fail> {
    let jobs = Even { strata: 256 };
    for workers in [1u32, 2, 4, 16] {
        if workers < 1 || workers > 16 {
            return Err("a number of workers is out of range".into());
        }
        let (table, mut pass) = RaceTable::new(rt.alloc(), 256, workers + 1)?;
        let book = Mutex::new(Counting {
            joins: 0,
            settles: 0,
        });
        let gate = Tally {
            drawn: AtomicU32::new(0),
            looked: AtomicU32::new(0),
            won: AtomicU32::new(0),
            joined: AtomicU32::new(0),
        };
        let reports = race(
            &rt,
            rt.alloc(),
            &table,
            &mut pass,
            &book,
            &jobs,
            &gate,
            workers,
        )?;
        assert_eq!(rt; reports.len(), 512);
        assert_eq!(rt; count(&reports, End::Joined), 256);
        let counted = book.into_inner();
        assert_eq!(rt; (counted.joins, counted.settles), (256, 256));
        assert_eq!(rt; gate.drawn.load(Ordering::SeqCst), 512);
        assert_eq!(rt; gate.won.load(Ordering::SeqCst), 256);
        assert_eq!(rt; gate.joined.load(Ordering::SeqCst), 256);
        assert!(rt; gate.looked.load(Ordering::SeqCst) >= 3 * 256);
    }
    Ok(())
}

#[test]
fn strangers_and_stops_are_reported(rt: HostRuntime) -> Result<(), Fail> {
    let (table, mut pass) = RaceTable::new(rt.alloc(), 4, 3)?;
    let foreign = Mutex::new(Foreign);
    let jobs = Even { strata: 4 };
    let reports = race(
        &rt,
        rt.alloc(),
        &table,
        &mut pass,
        &foreign,
        &jobs,
        &Silent,
        2,
    )?;
    assert_eq!(rt; count(&reports, End::Strange), 4);
    let (table, mut pass) = RaceTable::new(rt.alloc(), 4, 3)?;
    let book = Mutex::new(Counting {
        joins: 0,
        settles: 0,
    });
    let stopping = Stopping { strata: 4 };
    let reports = race(
        &rt,
        rt.alloc(),
        &table,
        &mut pass,
        &book,
        &stopping,
        &Silent,
        2,
    )?;
    assert_eq!(rt; count(&reports, End::GaveUp(JobStop::Memory)), 8);
    assert_eq!(rt; book.into_inner().joins, 0);
    Ok(())
}

// One race of two workers over two strata, the first of whom at stratum 2 is held: whether the other won it meanwhile.
fn is_held_until_won<R: Threads + Wait + Sync + Abort>(
    rt: &R,
    alloc: Global,
) -> Result<bool, Fail> {
    let (table, mut pass) = RaceTable::new(alloc, 2, 3)?;
    let book = Mutex::new(Counting {
        joins: 0,
        settles: 0,
    });
    let gate = Holding {
        looked: AtomicU32::new(0),
        won: AtomicU32::new(0),
        released: AtomicU32::new(0),
    };
    let jobs = Even { strata: 2 };
    let reports = race(rt, alloc, &table, &mut pass, &book, &jobs, &gate, 2)?;
    assert_eq!(rt; count(&reports, End::Joined), 2);
    let (mut winner, mut held, mut told) = (0, 0, 0);
    for report in reports.as_slice() {
        if report.ticket % 2 == 1 {
            match report.end {
                End::Joined => winner = report.seat,
                End::Withdrawn(seat) => {
                    held = report.seat;
                    told = seat;
                }
                _ => {}
            }
        }
    }
    assert_eq!(rt; told, winner);
    let is_released = gate.released.load(Ordering::SeqCst) == 1;
    assert!(rt; !is_released || held != winner);
    Ok(is_released)
}

// A body on one thread never releases the one that it holds.
#[test]
fn a_held_worker_withdraws(rt: HostRuntime) -> Result<(), Fail> {
    for _ in 0..3 {
        if is_held_until_won(&rt, rt.alloc())? {
            return Ok(());
        }
    }
    Err("no worker was held until another had won".into())
}

// A book that notes whether each settle follows its join.
#[derive(Drop)]
struct Ordered {
    joins: u32,
    settles: u32,
    astray: u32,
}

impl BookOf for Ordered {
    type Done = u32;

    ghost may_be_strange = { ⊥ };

    fn join(&mut self, won: Won, done: u32) -> Join<u32> {
        if won.spend().0 != done {
            self.astray = self.astray.saturating_add(1);
        }
        self.joins = self.joins.saturating_add(1);
        Join::Kept
    }

    fn settle(&mut self) -> Result<bool, NoMemory> {
        self.settles = self.settles.saturating_add(1);
        if self.joins != self.settles {
            self.astray = self.astray.saturating_add(1);
        }
        Ok(true)
    }
}

// A gate that notes each ticket and each stratum in a digit of its own, and whether the book's lock is held.
#[derive(Drop)]
struct Probing<'a> {
    book: &'a Mutex<Ordered>,
    drawn: AtomicU32,
    won: AtomicU32,
    joined: AtomicU32,
    held: AtomicU32,
}

impl<'a> Gate for Probing<'a> {
    fn at(&self, point: GatePoint) {
        if self.book.try_lock().is_none() {
            self.held.fetch_add(1, Ordering::SeqCst);
        }
        match point {
            GatePoint::Drawn(ticket) if ticket < 8 => {
                self.drawn.fetch_add(1 << (4 * ticket), Ordering::SeqCst);
            }
            GatePoint::Won(stratum) if stratum < 5 => {
                self.won.fetch_add(1 << (4 * stratum), Ordering::SeqCst);
            }
            GatePoint::Joined(stratum) if stratum < 5 => {
                self.joined.fetch_add(1 << (4 * stratum), Ordering::SeqCst);
            }
            _ => {}
        }
    }
}

// The tickets drawn, the strata won and joined, and how often the lock was held, in a race of one worker over four
// strata, so that no other holds the lock.
fn probed<R: Threads + Wait + Sync>(
    rt: &R,
    alloc: Global,
    book: &Mutex<Ordered>,
) -> Result<[u32; 4], NoMemory> {
    let (table, mut pass) = RaceTable::new(alloc, 4, 2)?;
    let gate = Probing {
        book,
        drawn: AtomicU32::new(0),
        won: AtomicU32::new(0),
        joined: AtomicU32::new(0),
        held: AtomicU32::new(0),
    };
    let jobs = Even { strata: 4 };
    race(rt, alloc, &table, &mut pass, book, &jobs, &gate, 1)?;
    Ok([
        gate.drawn.load(Ordering::SeqCst),
        gate.won.load(Ordering::SeqCst),
        gate.joined.load(Ordering::SeqCst),
        gate.held.load(Ordering::SeqCst),
    ])
}

#[test]
fn the_gate_sees_each_point(rt: HostRuntime) -> Result<(), Fail> {
    let book = Mutex::new(Ordered {
        joins: 0,
        settles: 0,
        astray: 0,
    });
    let seen = probed(&rt, rt.alloc(), &book)?;
    assert_eq!(rt; seen, [0x1111_1111, 0x1_1110, 0x1_1110, 0]);
    let kept = book.into_inner();
    assert_eq!(rt; (kept.joins, kept.settles, kept.astray), (4, 4, 0));
    Ok(())
}

#[test]
fn nothing_is_raced_over_no_stratum(rt: HostRuntime) -> Result<(), Fail> {
    let (table, mut pass) = RaceTable::new(rt.alloc(), 0, 3)?;
    let book = Mutex::new(Foreign);
    let jobs = Even { strata: 0 };
    let reports = race(&rt, rt.alloc(), &table, &mut pass, &book, &jobs, &Silent, 2)?;
    assert_eq!(rt; reports.len(), 0);
    Ok(())
}
