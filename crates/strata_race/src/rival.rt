// A job of a race.
use over_module::Done;
use race_table::{Job, JobStop, OpenLook, Progress};
use stratum_chain::Chain;

/// A job of a run: the chain of a point, by any of the ways in which a run goes on from ring to ring.
#[derive(Drop)]
pub enum Rival {
    /// The chain of rings by digits.
    Digits(Chain),
}

impl Job for Rival {
    ghost use Rattle.strata_race.specs.Rivals.{rival_stratum, rival_left, rival_may_stop, rival_is_whole};
    ghost use Rattle.strata_race.specs.Rivals.{IsDoneByRival};

    type Done = Done;

    ghost of_stratum = { rival_stratum };

    ghost left = { rival_left };

    ghost may_stop = { rival_may_stop };

    ghost is_whole = { rival_is_whole };

    ghost is_done = { IsDoneByRival };

    fn stratum(&self) -> u32 {
        match self {
            Rival::Digits(chain) => chain.stratum(),
        }
    }

    /// One enlargement of the chain, under a look that found its stratum open.
    ///
    /// # Errors
    /// Want of memory.
    fn enlarge(&mut self, look: OpenLook) -> Result<Progress<Done>, JobStop> {
        match self {
            Rival::Digits(chain) => chain.enlarge(look),
        }
    }
}
