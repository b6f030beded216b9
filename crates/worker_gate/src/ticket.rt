// The work on one ticket.
ghost use Rattle.std.specs.Prelude.{◌≡◌, ℕ, ◌<◌, ◌≤◌, false};
ghost use Rattle.race_table.specs.Passes.{view_of, strata_of, BelongsTo};
ghost use Rattle.worker_gate.specs.Ends.{EndsSo, IsJoinEnd};

use crate::gate::{Gate, GatePoint};
use crate::report::End;
use race_table::{BookOf, Job, Jobs, Join, Look, Pass, Progress, RaceTable, Win, Won};
use std::sync::{Mutex, Wait};

// Joins what was won under the book's lock, and settles it once.
fn join_won<R: Wait, B: BookOf, G: Gate>(
    rt: &R,
    book: &Mutex<B>,
    gate: &G,
    won: Won,
    done: B::Done,
) -> End
    ensures { IsJoinEnd B.may_be_strange result }
{
    let stratum = won.stratum();
    gate.at(GatePoint::Won(stratum));
    let joined = {
        let mut held = book.lock(rt);
        let joined = held.join(won, done);
        let _ = held.settle();
        joined
    };
    match joined {
        Join::Kept => {
            gate.at(GatePoint::Joined(stratum));
            End::Joined
        }
        Join::Stranger(_) => End::Strange,
    }
}

// Works the stratum by a job of the kind, until it is done, stops, or another seat has won.
pub fn work_ticket<R: Wait, J: Jobs, B: BookOf<Done = <J::Job as Job>::Done>, G: Gate>(
    rt: &R,
    table: &RaceTable,
    pass: &mut Pass,
    book: &Mutex<B>,
    jobs: &J,
    gate: &G,
    kind: u32,
    stratum: u32,
) -> End
    requires table { BelongsTo table.now pass.old }
    requires strata { J.strata jobs.now ≡ strata_of table.now }
    requires kind { kind < 2 }
    requires stratum { (1 ≤ stratum) × (stratum ≤ strata_of table.now) }
    ensures table { BelongsTo table.now pass.new }
    ensures end { EndsSo (J.may_stop jobs.now) B.may_be_strange kind stratum (view_of pass.old) result (view_of pass.new) }
{
    let mut job = match jobs.start(kind, stratum) {
        Ok(job) => job,
        Err(stop) => return End::GaveUp(stop),
    };
    loop {
        let found = table.look(pass, stratum);
        gate.at(GatePoint::Looked(stratum));
        let look = match found {
            Look::Open(look) => look,
            Look::Taken(seat) => return End::Withdrawn(seat),
        };
        match job.enlarge(look) {
            Ok(Progress::More) => {}
            Ok(Progress::Whole(done)) => {
                return match table.win(pass, stratum) {
                    Win::Won(won) => join_won(rt, book, gate, won, done),
                    Win::Lost(seat) => End::Withdrawn(seat),
                };
            }
            Err(stop) => return End::GaveUp(stop),
        }
    }
}
