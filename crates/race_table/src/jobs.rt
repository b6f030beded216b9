// The work on strata, and the book that keeps it, as the workers see them.
ghost use Rattle.std.specs.Prelude.{◌≡◌, ℕ, ◌<◌, ◌≤◌, ◌↔◌, Bool, true, false, IfOk, IfErr};
ghost use Rattle.race_table.specs.Jobs.{MatchProgress, IfStranger};

use crate::claim::{OpenLook, Won};
use lists::NoMemory;

/// What an enlargement came to.
#[derive(Drop)]
pub enum Progress<D> {
    /// There is more to do.
    More,
    /// The job is done, with this.
    Whole(D),
}

/// Why a job stopped.
#[derive(Clone, Copy, Debug, PartialEq, Eq)]
pub enum JobStop {
    /// A basis would be too deep.
    Deep,
    /// No memory was to be had.
    Memory,
}

/// The work on one stratum.
pub trait Job: Drop {
    type Done: Drop;

    ghost use Rattle.std.specs.Prelude.{ℕ, Bool};
    ghost use Rattle.race_table.specs.declared.jobs.JobStop.{JobStop};

    // The stratum of the job.
    ghost of_stratum: { Self → ℕ };

    // More than the enlargements that may be left.
    ghost left: { Self → ℕ };

    // The stops that may come.
    ghost may_stop: { Self → JobStop → Type 0 };

    // Whether the job has answered `Whole`.
    ghost is_whole: { Self → Bool };

    // What a Done of the job is.
    ghost is_done: { Self → Self.Done → Type 0 };

    /// The job's stratum.
    fn stratum(&self) -> u32
        ensures { result ≡ of_stratum self.now };

    /// One step of the work, under a look that found the job's stratum open.
    fn enlarge(&mut self, look: OpenLook) -> Result<Progress<Self::Done>, JobStop>
        requires stratum { look ≡ of_stratum self.old }
        requires open { is_whole self.old ≡ false }
        ensures same { of_stratum self.new ≡ of_stratum self.old }
        ensures stops { (stop : JobStop) → may_stop self.new stop ↔ may_stop self.old stop }
        ensures more { IfOk result (λ p. MatchProgress p ((left self.new < left self.old) × (is_whole self.new ≡ false)) (λ done. (is_whole self.new ≡ true) × is_done self.old done)) }
        ensures stop { IfErr result (λ stop. may_stop self.old stop × (is_whole self.new ≡ false)) };
}

/// The jobs of a race, one of each kind for each stratum.
pub trait Jobs {
    type Job: Job;

    ghost use Rattle.std.specs.Prelude.{ℕ};
    ghost use Rattle.race_table.specs.declared.jobs.JobStop.{JobStop};

    // The number of strata.
    ghost strata: { Self → ℕ };

    // The stops that may come, by kind and stratum.
    ghost may_stop: { Self → ℕ → ℕ → JobStop → Type 0 };

    /// The job of the kind, 0 or 1, for the stratum, 1 to the number of strata.
    fn start(&self, kind: u32, stratum: u32) -> Result<Self::Job, JobStop>
        requires kind { kind < 2 }
        requires stratum { (1 ≤ stratum) × (stratum ≤ strata self.now) }
        ensures job { IfOk result (λ job. (Self.Job.of_stratum job ≡ stratum) × (Self.Job.is_whole job ≡ false)) }
        ensures stops { IfOk result (λ job. (stop : JobStop) → Self.Job.may_stop job stop ↔ may_stop self.now kind stratum stop) }
        ensures stop { IfErr result (λ stop. may_stop self.now kind stratum stop) };
}

/// What a join came to.
#[derive(Drop)]
pub enum Join<D> {
    /// The book has the work.
    Kept,
    /// The work is not of this book.
    Stranger(D),
}

/// A book of joined work.
pub trait BookOf {
    type Done: Drop;

    // Whether the book may answer `Stranger`. It belongs to the type, since a value under a lock is
    // known by its type alone.
    ghost may_be_strange: { Type 0 };

    /// Joins what was done for the stratum that was won.
    fn join(&mut self, won: Won, done: Self::Done) -> Join<Self::Done>
        ensures { IfStranger result may_be_strange };

    /// Settles what was joined. On `NoMemory` it is settled by a later call.
    fn settle(&mut self) -> Result<bool, NoMemory>;
}
