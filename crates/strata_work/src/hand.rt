// The work on a stratum by the caller itself.
ghost use Rattle.std.specs.Prelude.{◌≡◌, ◌<◌, ◌≤◌, ◌-◌, false, length, slice_index_or, IfOk};
ghost use Rattle.polys.specs.Curve.{Fit};
ghost use Rattle.digit_plan.specs.Lifts.{IsLiftedOf};
ghost use Rattle.race_table.specs.Jobs.{MatchProgress};
ghost use Rattle.race_table.specs.Passes.{view_of, strata_of, BelongsTo};
ghost use Rattle.stratum_chain.specs.Chain.{IsStarted, IsDoneBy, IsMore, IsWhole};
ghost use Rattle.join_book.specs.Book.{ArePointsOf, IsWorkOf};
ghost use Rattle.strata_work.specs.Hand.{IsAlone, hand_data};

use super::chains::Chains;
use super::copies::copy_of_point;
use super::few::strata_among;
use curve_model::Point;
use lift_colon::Lifted;
use lists::{List, NoMemory};
use over_module::Done;
use polys::Curve;
use race_table::{Job, Look, Pass, Progress, RaceTable};
use std::alloc::Global;
use std::marker::Model;
use std::sync::Arc;
use stratum_chain::Chain;

/// The work on the strata of a curve's points, one at a time.
pub trait ByHand {
    ghost use Rattle.std.specs.Prelude.{ℕ, List};
    ghost use Rattle.polys.specs.declared.curve.Curve.{Curve};
    ghost use Rattle.curve_model.specs.declared.point.Point.{Point};

    // The curve, the points and the limit of the work.
    ghost of_curve: { Self → Curve };

    ghost of_points: { Self → List Point };

    ghost of_limit: { Self → ℕ };

    /// The work on the stratum, 1 to the number of points.
    ///
    /// # Errors
    /// Want of memory.
    fn work(&mut self, alloc: Global, stratum: u32) -> Result<Done, NoMemory>
        requires { (1 ≤ stratum) × (stratum ≤ length (of_points self.old)) }
        ensures same { (of_curve self.new ≡ of_curve self.old) × (of_points self.new ≡ of_points self.old) × (of_limit self.new ≡ of_limit self.old) }
        ensures work { IfOk result (λ d. IsWorkOf (of_curve self.old) (of_points self.old) (of_limit self.old) d × (d.stratum ≡ stratum)) };
}

/// A hand that works by the points' chains, which share their digits.
#[derive(Drop)]
pub struct Hand {
    chains: Chains,
    points: List<Point>,
}

impl Model for Hand {
    ghost use Rattle.strata_work.specs.Hand.{HandData, IsHand, hand_data};

    ghost Value = { HandData };

    ghost view = { λ h. hand_data h.chains.curve h.points h.chains.limit };

    ghost invariant = { λ h. IsHand h.chains.curve h.points };
}

impl Hand {
    /// A hand for the points, which are points of the curve, each once. The curve is fit, `lifted` is of its ideal and
    /// denominator, and the limit of delta is 1 to 64.
    ///
    /// It takes one table of digits of depth 2 and one of depth 4 for all points.
    ///
    /// # Errors
    /// Want of memory.
    pub fn new(
        alloc: Global,
        curve: Arc<Curve>,
        lifted: Arc<Lifted>,
        points: List<Point>,
        limit: u32,
    ) -> Result<Hand, NoMemory>
        requires fit { Fit curve.value }
        requires lifted { IsLiftedOf curve.value lifted.value }
        requires points { ArePointsOf curve.value points }
        requires limit { (1 ≤ limit) × (limit ≤ 64) }
        ensures { IfOk result (λ hand. hand ≡ hand_data curve.value points limit) }
    {
        let chains = Chains::new(alloc, curve, lifted, limit)?;
        Ok(Hand { chains, points })
    }

    // The chain of the stratum's point.
    fn chain_of(&self, alloc: Global, stratum: u32) -> Result<Chain, NoMemory>
        requires { (1 ≤ stratum) × (stratum ≤ length self.now.points) }
        ensures { IfOk result (λ chain. IsStarted self.now.curve (slice_index_or self.now.points (stratum - 1) chain.point) stratum self.now.limit chain) }
    {
        let point = &self.points.as_slice()[(stratum - 1) as usize];
        let copy = copy_of_point(alloc, point)?;
        self.chains.start(copy, stratum)
    }
}

// One enlargement, at a table of one seat that has won nothing.
fn enlarge_alone(
    chain: &mut Chain,
    table: &RaceTable,
    pass: &mut Pass,
) -> Result<Progress<Done>, NoMemory>
    requires table { BelongsTo table.now pass.old }
    requires alone { IsAlone (view_of pass.old) }
    requires stratum { (1 ≤ chain.old.stratum) × (chain.old.stratum ≤ strata_of table.now) }
    requires open { chain.old.whole ≡ false }
    ensures table { BelongsTo table.now pass.new }
    ensures same { view_of pass.new ≡ view_of pass.old }
    ensures step { IfOk result (λ p. MatchProgress p (IsMore chain.old chain.new) (IsWhole chain.old chain.new)) }
{
    let stratum = chain.stratum();
    match table.look(pass, stratum) {
        Look::Open(look) => match chain.enlarge(look) {
            Ok(progress) => Ok(progress),
            Err(_) => Err(NoMemory),
        },
        Look::Taken(_) => unreachable!(),
    }
}

// Enlarges the chain until its work is done.
fn finish(chain: Chain, table: &RaceTable, pass: Pass) -> Result<Done, NoMemory>
    requires table { BelongsTo table.now pass }
    requires alone { IsAlone (view_of pass) }
    requires stratum { (1 ≤ chain.stratum) × (chain.stratum ≤ strata_of table.now) }
    requires open { chain.whole ≡ false }
    ensures { IfOk result (IsDoneBy chain) }
{
    let mut chain = chain;
    let mut pass = pass;
    loop {
        match enlarge_alone(&mut chain, table, &mut pass)? {
            Progress::More => {}
            Progress::Whole(done) => return Ok(done),
        }
    }
}

impl ByHand for Hand {
    ghost of_curve = { λ h. h.curve };

    ghost of_points = { λ h. h.points };

    ghost of_limit = { λ h. h.limit };

    /// The chain of the stratum's point, enlarged until it is whole, at a fresh table of one seat. It takes at most as many
    /// enlargements as the limit of delta and one more, and digits for each power of d above 1 that its rings reach.
    ///
    /// # Errors
    /// Want of memory; then the hand is as it was.
    fn work(&mut self, alloc: Global, stratum: u32) -> Result<Done, NoMemory> {
        let chain = self.chain_of(alloc, stratum)?;
        let strata = strata_among(self.chains.curve(), self.points.as_slice());
        let (table, pass) = RaceTable::new(alloc, strata, 1)?;
        finish(chain, &table, pass)
    }
}
