// The crew: a pass and a list of reports for each worker.
ghost use Rattle.std.specs.Prelude.{◌≡◌, ℕ, ◌+◌, ◌*◌, ◌<◌, ◌≤◌, [], ◌∷◌, ◌++◌, List, length, slice_index_or, vec_len, vec_capacity, IfOk, OnErr};
ghost use Rattle.race_table.specs.Views.{HasAll};
ghost use Rattle.race_table.specs.Passes.{view_of, strata_of, BelongsTo};
ghost use Rattle.worker_gate.specs.Crews.{IsBlank, Raced, UnwonGaveUp};
ghost use Rattle.worker_gate.specs.declared.member.Worker.{Worker};
ghost use Rattle.worker_gate.specs.Hired.{AreRooms, AreHired, AreDone, AreBack, MayBegin, IsDone};

use crate::gate::Gate;
use crate::member::Worker;
use crate::report::{Report, Reports};
use crate::worker::work;
use lists::{List, NoMemory};
use race_table::{BookOf, Job, Jobs, Pass, RaceTable};
use std::alloc::Global;
use std::sync::{Mutex, Wait};
use std::thread::{Threads, for_each_mut};

// An empty list of reports for each worker, with room for so many.
fn make_rooms(alloc: Global, workers: u32, size: usize) -> Result<Vec<Vec<Report>>, NoMemory>
    ensures { IfOk result (λ rooms. AreRooms size rooms.items × (length rooms.items ≡ workers)) }
{
    let mut rooms = Vec::new(alloc);
    for _worker in 0..workers {
        rooms.push(Vec::with_capacity(alloc, size)?)?;
    }
    Ok(rooms)
}

// Splits a pass off for each room, the last number first.
fn hire(
    table: &RaceTable,
    pass: &mut Pass,
    mut rooms: Vec<Vec<Report>>,
    mut crew: Vec<Worker>,
) -> Vec<Worker>
    requires table { BelongsTo table.now pass.old }
    requires blank { IsBlank (view_of pass.old) × HasAll (view_of pass.old) }
    requires rooms { AreRooms (2 * strata_of table.now) rooms.items × (length rooms.items + 1 ≡ (view_of pass.old).parts) }
    requires places { (crew.items ≡ []) × (length rooms.items ≤ vec_capacity crew) }
    ensures table { BelongsTo table.now pass.new }
    ensures alone { IsBlank (view_of pass.new) × ((view_of pass.new).first ≡ 1) × ((view_of pass.new).parts ≡ 1) }
    ensures crew { AreHired table.now (view_of pass.old).seats result.items × (length result.items ≡ length rooms.items) }
{
    while let Some(reports) = rooms.pop() {
        let own = pass.split(table);
        crew.push_reserved(Worker { pass: own, reports });
    }
    crew
}

// Lets each worker work, in a thread of its own where one can be made.
fn run_crew<
    R: Threads + Wait + Sync,
    J: Jobs + Sync,
    B: BookOf<Done = <J::Job as Job>::Done> + Send,
    G: Gate + Sync,
>(rt: &R, table: &RaceTable, crew: &mut [Worker], book: &Mutex<B>, jobs: &J, gate: &G)
where
    J::Job: Send,
    <J::Job as Job>::Done: Send,
    requires strata { J.strata jobs.now ≡ strata_of table.now }
    requires some { 0 < length crew.old }
    requires crew { (k : ℕ) (d : Worker) → k < length crew.old → MayBegin table.now (slice_index_or crew.old k d) }
    ensures { AreDone (J.may_stop jobs.now) B.may_be_strange table.now crew.old crew.new }
{
    let count = crew.len();
    for_each_mut(
        rt,
        crew,
        count,
        &|_, worker: &mut Worker|
            requires { MayBegin table.now worker.now × (J.strata jobs.now ≡ strata_of table.now) }
            ensures { IsDone (J.may_stop jobs.entry.now) B.may_be_strange table.entry.now (view_of worker.entry.now.pass) worker.exit.now }
        {
            work(
                rt,
                table,
                &mut worker.pass,
                &mut worker.reports,
                book,
                jobs,
                gate,
            )
        },
    );
}

// Adds reports for which there is room.
fn add_all(all: &mut Vec<Report>, reports: &[Report])
    requires { length all.old.items + length reports.now ≤ vec_capacity all.old }
    ensures items { all.new.items ≡ all.old.items ++ reports.now }
    ensures capacity { vec_capacity all.new ≡ vec_capacity all.old }
{
    for report in reports {
        all.push_reserved(*report);
    }
}

// Makes one pass of all, the first number first, and one list of their reports.
fn gather<J: Jobs, B: BookOf>(
    table: &RaceTable,
    pass: &mut Pass,
    mut crew: Vec<Worker>,
    mut all: Vec<Report>,
    jobs: &J,
) -> Vec<Report>
    requires table { BelongsTo table.now pass.old }
    requires alone { IsBlank (view_of pass.old) × ((view_of pass.old).first ≡ 1) × ((view_of pass.old).parts ≡ 1) }
    requires crew { AreBack (J.may_stop jobs.now) B.may_be_strange table.now (view_of pass.old).seats crew.items × (0 < length crew.items) × (length crew.items + 1 ≡ (view_of pass.old).seats) }
    requires room { (all.items ≡ []) × (length crew.items * (2 * strata_of table.now) ≤ vec_capacity all) }
    ensures table { BelongsTo table.now pass.new }
    ensures raced { Raced (J.may_stop jobs.now) B.may_be_strange (view_of pass.new) result.items }
{
    while let Some(worker) = crew.pop() {
        let Worker {
            pass: theirs,
            reports,
        } = worker;
        pass.unite(table, theirs);
        add_all(&mut all, reports.as_slice());
    }
    all
}

/// Lets the workers race over the table's strata: each draws tickets until they are spent, works
/// each by a job, and joins what it wins. The pass has all numbers, one more than there are workers,
/// and is united again at the end. There are 1 to 16 workers, and as many strata as the jobs have.
/// `NoMemory` comes before the first split, and then nothing has changed.
pub fn race<
    R: Threads + Wait + Sync,
    J: Jobs + Sync,
    B: BookOf<Done = <J::Job as Job>::Done> + Send,
    G: Gate + Sync,
>(
    rt: &R,
    alloc: Global,
    table: &RaceTable,
    pass: &mut Pass,
    book: &Mutex<B>,
    jobs: &J,
    gate: &G,
    workers: u32,
) -> Result<Reports, NoMemory>
where
    J::Job: Send,
    <J::Job as Job>::Done: Send,
    requires table { BelongsTo table.now pass.old }
    requires strata { J.strata jobs.now ≡ strata_of table.now }
    requires workers { (1 ≤ workers) × (workers ≤ 16) × ((view_of pass.old).parts ≡ workers + 1) }
    requires fresh { IsBlank (view_of pass.old) × HasAll (view_of pass.old) }
    ensures table { BelongsTo table.now pass.new }
    ensures raced { IfOk result (λ reports. Raced (J.may_stop jobs.now) B.may_be_strange (view_of pass.new) reports) }
    ensures unwon { IfOk result (λ reports. UnwonGaveUp (view_of pass.new) reports) }
    ensures err { OnErr result (view_of pass.new ≡ view_of pass.old) }
{
    let size = 2 * table.strata() as usize;
    let places = Vec::with_capacity(alloc, workers as usize)?;
    let all = Vec::with_capacity(alloc, workers as usize * size)?;
    let rooms = make_rooms(alloc, workers, size)?;
    let mut crew = hire(table, pass, rooms, places);
    run_crew(rt, table, crew.as_mut_slice(), book, jobs, gate);
    let reports = gather::<J, B>(table, pass, crew, all, jobs);
    Ok(List::of_vec(reports))
}
