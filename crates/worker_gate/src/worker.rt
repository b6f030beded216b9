// One worker, who draws tickets until they are spent.
ghost use Rattle.std.specs.Prelude.{◌≡◌, ℕ, ◌*◌, ◌≤◌, [], vec_capacity};
ghost use Rattle.race_table.specs.Passes.{view_of, strata_of, BelongsTo};
ghost use Rattle.worker_gate.specs.Crews.{IsBlank, Worked};

use crate::gate::{Gate, GatePoint};
use crate::report::Report;
use crate::ticket::work_ticket;
use race_table::{BookOf, Job, Jobs, Pass, RaceTable, Ticket};
use std::sync::{Mutex, Wait};

// Works each ticket that the pass draws, and adds its report. There is room for all tickets.
pub fn work<R: Wait, J: Jobs, B: BookOf<Done = <J::Job as Job>::Done>, G: Gate>(
    rt: &R,
    table: &RaceTable,
    pass: &mut Pass,
    reports: &mut Vec<Report>,
    book: &Mutex<B>,
    jobs: &J,
    gate: &G,
)
    requires table { BelongsTo table.now pass.old }
    requires strata { J.strata jobs.now ≡ strata_of table.now }
    requires blank { IsBlank (view_of pass.old) }
    requires room { (reports.old.items ≡ []) × (2 * strata_of table.now ≤ vec_capacity reports.old) }
    ensures table { BelongsTo table.now pass.new }
    ensures worked { Worked (J.may_stop jobs.now) B.may_be_strange (view_of pass.old) (view_of pass.new) reports.new.items }
{
    let strata = table.strata();
    let seat = pass.number();
    for _ in rt.forever() {
        let ticket = match table.draw(pass) {
            Ticket::Number(ticket) => ticket,
            Ticket::Spent => return,
        };
        gate.at(GatePoint::Drawn(ticket));
        let kind = ticket / strata;
        let stratum = ticket % strata + 1;
        let end = work_ticket(rt, table, pass, book, jobs, gate, kind, stratum);
        reports.push_reserved(Report { ticket, seat, end });
    }
}
