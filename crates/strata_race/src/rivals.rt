// The jobs of a run.
ghost use Rattle.std.specs.Prelude.{◌≡◌, ◌≤◌, length, IfOk};
ghost use Rattle.polys.specs.Curve.{Fit};
ghost use Rattle.digit_plan.specs.Lifts.{IsLiftedOf};
ghost use Rattle.join_book.specs.Book.{ArePointsOf};
ghost use Rattle.strata_race.specs.Rivals.{rivals_data, IsChainOf};

use super::rival::Rival;
use curve_model::Point;
use lift_colon::Lifted;
use lists::{List, NoMemory};
use polys::Curve;
use race_table::{JobStop, Jobs};
use std::alloc::Global;
use std::marker::Model;
use std::sync::Arc;
use strata_work::{Chains, copy_of_point};
use stratum_chain::Chain;

/// The rivals of a run, two for each point of a curve. The stratum i is the point with this number, from 1.
#[derive(Drop)]
pub struct Rivals {
    chains: Chains,
    points: List<Point>,
    alloc: Global,
}

impl Model for Rivals {
    ghost use Rattle.strata_work.specs.Hand.{IsHand};
    ghost use Rattle.strata_race.specs.Rivals.{RivalsData, rivals_data};

    ghost Value = { RivalsData };

    ghost view = { λ r. rivals_data r.chains.curve r.points r.chains.limit };

    ghost invariant = { λ r. IsHand r.chains.curve r.points };
}

impl Rivals {
    /// The rivals for the points, which are points of the curve, each once. The curve is fit, `lifted` is of its ideal
    /// and denominator, and the limit of delta is 1 to 64.
    ///
    /// It takes one table of digits of depth 2 and one of depth 4 for all points.
    ///
    /// # Errors
    /// Want of memory.
    pub fn new(
        alloc: Global,
        curve: Arc<Curve>,
        lifted: Arc<Lifted>,
        points: List<Point>,
        limit: u32,
    ) -> Result<Rivals, NoMemory>
        requires fit { Fit curve.value }
        requires lifted { IsLiftedOf curve.value lifted.value }
        requires points { ArePointsOf curve.value points }
        requires limit { (1 ≤ limit) × (limit ≤ 64) }
        ensures { IfOk result (λ rivals. rivals ≡ rivals_data curve.value points limit) }
    {
        let chains = Chains::new(alloc, curve, lifted, limit)?;
        Ok(Rivals {
            chains,
            points,
            alloc,
        })
    }

    // The chain of the stratum's point.
    fn chain_of(&self, stratum: u32) -> Result<Chain, NoMemory>
        requires { (1 ≤ stratum) × (stratum ≤ length self.now.points) }
        ensures { IfOk result (IsChainOf self.now stratum) }
    {
        let point = &self.points.as_slice()[(stratum - 1) as usize];
        let copy = copy_of_point(self.alloc, point)?;
        self.chains.start(copy, stratum)
    }
}

impl Jobs for Rivals {
    ghost use Rattle.std.specs.Prelude.{◌≡◌, ◌≤◌, ◌<◌, ◌↔◌, false, length, IfOk, IfErr};
    ghost use Rattle.race_table.specs.declared.jobs.JobStop.{JobStop};
    ghost use Rattle.race_table.specs.declared.jobs.JobStop.TheVariants.{Memory};
    ghost use Rattle.strata_race.specs.Rivals.{IsRivalOf, rival_stratum, rival_may_stop, rival_is_whole};

    type Job = Rival;

    ghost strata = { λ rivals. length rivals.points };

    ghost may_stop = { λ _ _ _ stop. stop ≡ Memory };

    /// The chain of the stratum's point by digits, for either kind. It takes no digits of its own.
    ///
    /// # Errors
    /// Want of memory.
    fn start(&self, _kind: u32, stratum: u32) -> Result<Rival, JobStop>
        requires stratum { (1 ≤ stratum) × (stratum ≤ length self.now.points) }
        ensures rival { IfOk result (IsRivalOf self.now stratum) }
        ensures job { IfOk result (λ job. (rival_stratum job ≡ stratum) × (rival_is_whole job ≡ false)) }
        ensures stops { IfOk result (λ job. (stop : JobStop) → rival_may_stop job stop ↔ (stop ≡ Memory)) }
        ensures stop { IfErr result (λ stop. stop ≡ Memory) }
    {
        match self.chain_of(stratum) {
            Ok(chain) => Ok(Rival::Digits(chain)),
            Err(_) => Err(JobStop::Memory),
        }
    }
}
