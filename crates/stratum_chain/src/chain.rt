// The chain of a point.
ghost use Rattle.std.specs.Prelude.{◌≡◌, ◌↔◌, ◌<◌, ◌≤◌, ◌+◌, ◌*◌, false, true, Option, IfOk, IfErr, OnErr};
ghost use Rattle.polys.specs.declared.curve.Curve.{Curve};
ghost use Rattle.polys.specs.Curve.{Fit, data_of};
ghost use Rattle.curve_model.specs.Point.{IsPointOf, basis_of};
ghost use Rattle.digit_plan.specs.Lifts.{IsLiftedOf};
ghost use Rattle.over_laws.specs.Chain.{IsEnlarged};
ghost use Rattle.over_module.specs.Done.{HoldsLocal};
ghost use Rattle.curve_model.specs.Delta.{IsDeltaAbove};
ghost use Rattle.race_table.specs.Jobs.{MatchProgress};
ghost use Rattle.race_table.specs.declared.jobs.JobStop.TheVariants.{Memory};

use curve_model::Point;
use digit_make::{extended, make};
use digit_space::Digits;
use endo_ring::endomorphisms;
use lift_colon::Lifted;
use lists::NoMemory;
use over_laws::laws::chains_are_steps;
use over_module::{Done, Over};
use point_radical::point_radical;
use polys::{Curve, copied};
use race_table::{Job, JobStop, OpenLook, Progress};
use std::alloc::Global;
use std::marker::Model;
use std::sync::Arc;

/// The rings that grow at a point, from A on. Each has all fractions that take the radical of the one before it into itself.
///
/// It keeps digits of the depth 2k + 2, where k is the least power of d that serves the ring that was reached.
#[derive(Drop)]
pub struct Chain {
    lifted: Arc<Lifted>,
    point: Point,
    stratum: u32,
    limit: u32,
    digits: Arc<Digits>,
    deeper: Option<Arc<Digits>>,
    over: Over,
    whole: bool,
}

impl Model for Chain {
    ghost use Rattle.digit_plan.specs.Lifts.{IsLiftedOf};
    ghost use Rattle.stratum_chain.specs.Chain.{ChainData, IsChain, AreOfCurve};

    ghost Value = { ChainData };

    ghost view = { λ c. record { point = c.point; stratum = c.stratum; limit = c.limit; digits = c.digits.value; over = c.over; whole = c.whole } };

    ghost invariant = { λ c. IsChain (record { point = c.point; stratum = c.stratum; limit = c.limit; digits = c.digits.value; over = c.over; whole = c.whole })
        × IsLiftedOf c.over.curve c.lifted.value
        × AreOfCurve c.over.curve c.deeper };
}

impl Chain {
    ghost use Rattle.stratum_chain.specs.Chain.{ChainData, IsChain, IsStarted, IsMore, IsWhole, IsFinishedWork, IsWorkAbove, AreOfCurve};

    /// The chain of the point, which begins at A with digits of its own.
    ///
    /// The curve is fit, `lifted` is of its ideal and denominator, the point is one of its points, and the limit of delta is 1 to
    /// 64.
    ///
    /// # Errors
    /// Want of memory.
    pub fn start(
        alloc: Global,
        curve: Arc<Curve>,
        lifted: Arc<Lifted>,
        point: Point,
        stratum: u32,
        limit: u32,
    ) -> Result<Chain, NoMemory>
        requires fit { Fit curve.value }
        requires lifted { IsLiftedOf curve.value lifted.value }
        requires point { IsPointOf (data_of curve.value) point }
        requires limit { (1 ≤ limit) × (limit ≤ 64) }
        ensures { IfOk result (IsStarted curve.value point stratum limit) }
    {
        let digits = Arc::new(alloc, make(alloc, &curve, &lifted, 2)?)?;
        Chain::of_digits(digits, None, lifted, point, stratum, limit)
    }

    /// The chain of the point, which begins at A with digits that other chains of the curve share, of depth 2. The deeper digits
    /// are taken where their depth is the one that is needed.
    ///
    /// `lifted` is of the ideal and the denominator of the digits' curve, the point is one of its points, and the limit of delta
    /// is 1 to 64.
    ///
    /// # Errors
    /// Want of memory.
    pub fn of_digits(
        digits: Arc<Digits>,
        deeper: Option<Arc<Digits>>,
        lifted: Arc<Lifted>,
        point: Point,
        stratum: u32,
        limit: u32,
    ) -> Result<Chain, NoMemory>
        requires depth { digits.value.depth ≡ 2 }
        requires deeper { AreOfCurve digits.value.curve deeper }
        requires lifted { IsLiftedOf digits.value.curve lifted.value }
        requires point { IsPointOf (data_of digits.value.curve) point }
        requires limit { (1 ≤ limit) × (limit ≤ 64) }
        ensures { IfOk result (IsStarted digits.value.curve point stratum limit) }
    {
        chains_are_steps();
        let _basis = digits.basis();
        let curve = Arc::try_clone(digits.curve())?;
        let over = Over::plain(digits.allocator(), curve, digits.dimension());
        let _rows = over.rows();
        Ok(Chain {
            lifted,
            point,
            stratum,
            limit,
            digits,
            deeper,
            over,
            whole: false,
        })
    }

    /// The point.
    pub fn point(&self) -> &Point
        ensures { result.now ≡ self.now.point }
    {
        &self.point
    }

    /// The limit of delta.
    pub fn limit(&self) -> u32
        ensures { result ≡ self.now.limit }
    {
        self.limit
    }

    /// The digits that the chain keeps. Their depth is 2k + 2, where k is the least power of d that serves the ring.
    pub fn digits(&self) -> &Digits
        ensures value { result.now ≡ self.now.digits }
        ensures known { IsChain self.now }
    {
        &self.digits
    }

    /// The ring that was reached.
    pub fn over(&self) -> &Over
        ensures value { result.now ≡ self.now.over }
        ensures known { IsChain self.now }
    {
        &self.over
    }

    // The ring of the fractions that take the radical into itself.
    fn next(&self) -> Result<Over, NoMemory>
        ensures enlarged { IfOk result (IsEnlarged self.now.over (basis_of self.now.point)) }
        ensures power { IfOk result (λ q. q.power ≡ self.now.over.power + 1) }
    {
        let _rows = self.over.rows();
        let radical = point_radical(&self.digits, &self.over, &self.point)?;
        let made = endomorphisms(&self.digits, &self.over, &radical)?;
        Ok(made)
    }

    // Digits for a ring with this power.
    fn digits_for(&self, power: u32) -> Result<Arc<Digits>, NoMemory>
        requires grows { self.now.over.power ≤ power }
        requires low { power ≤ 64 }
        ensures curve { IfOk result (λ g. g.value.curve ≡ self.now.over.curve) }
        ensures depth { IfOk result (λ g. g.value.depth ≡ 2 * power + 2) }
    {
        let depth = 2 * power + 2;
        if self.digits.depth() == depth {
            return Ok(Arc::try_clone(&self.digits)?);
        }
        if let Some(deeper) = &self.deeper {
            if deeper.depth() == depth {
                return Ok(Arc::try_clone(deeper)?);
            }
        }
        let digits = extended(&self.digits, &self.lifted, depth)?;
        Ok(Arc::new(self.digits.allocator(), digits)?)
    }

    // A copy of the point.
    fn copy_of_point(&self) -> Result<Point, NoMemory>
        ensures { IfOk result (λ point. point ≡ self.now.point) }
    {
        Ok(Point {
            basis: copied(self.digits.allocator(), self.point.basis.as_slice())?,
            degree: self.point.degree,
        })
    }

    // The work is done, and the ring has exactly the local fractions.
    fn finished(&self) -> Result<Done, NoMemory>
        requires { HoldsLocal self.now.over.curve self.now.point self.now.limit self.now.over }
        ensures { IfOk result (IsFinishedWork self.now) }
    {
        let _rows = self.over.rows();
        let point = self.copy_of_point()?;
        let over = self.over.least_power()?;
        Ok(Done::finished(point, self.stratum, self.limit, over))
    }

    // The work is done, and delta is above the limit.
    fn too_large(&self) -> Result<Done, NoMemory>
        requires { IsDeltaAbove (data_of self.now.over.curve) (basis_of self.now.point) self.now.limit }
        ensures { IfOk result (IsWorkAbove self.now) }
    {
        let _rows = self.over.rows();
        let point = self.copy_of_point()?;
        let curve = Arc::try_clone(self.over.curve())?;
        Ok(Done::too_large(curve, point, self.stratum, self.limit))
    }

    // One enlargement.
    fn grow(&mut self) -> Result<Progress<Done>, NoMemory>
        requires { self.old.whole ≡ false }
        ensures step { IfOk result (λ p. MatchProgress p (IsMore self.old self.new) (IsWhole self.old self.new)) }
        ensures kept { OnErr result (self.new ≡ self.old) }
    {
        chains_are_steps();
        let _old = self.over.rows();
        let next = self.next()?;
        let _next = next.rows();
        let reached = next.dimension();
        if reached > self.limit as usize {
            let done = self.too_large()?;
            self.whole = true;
            return Ok(Progress::Whole(done));
        }
        if reached == self.over.dimension() {
            let done = self.finished()?;
            self.whole = true;
            return Ok(Progress::Whole(done));
        }
        let over = next.least_power()?;
        let _least = over.rows();
        let digits = self.digits_for(over.power())?;
        self.digits = digits;
        self.over = over;
        Ok(Progress::More)
    }
}

impl Job for Chain {
    ghost use Rattle.std.specs.Prelude.{◌≡◌, ◌<◌, ◌↔◌, true, false, IfOk, IfErr, OnErr};
    ghost use Rattle.race_table.specs.Jobs.{MatchProgress};
    ghost use Rattle.race_table.specs.declared.jobs.JobStop.{JobStop};
    ghost use Rattle.race_table.specs.declared.jobs.JobStop.TheVariants.{Memory};
    ghost use Rattle.stratum_chain.specs.Chain.{left_of, IsDoneBy, IsMore, IsWhole};

    type Done = Done;

    ghost of_stratum = { λ c. c.stratum };

    ghost left = { left_of };

    ghost may_stop = { λ _ stop. stop ≡ Memory };

    ghost is_whole = { λ c. c.whole };

    ghost is_done = { IsDoneBy };

    fn stratum(&self) -> u32 {
        self.stratum
    }

    /// One enlargement, under a look that found the point's stratum open: the ring becomes that of all fractions that take the
    /// radical of the ring at the point into itself, where that one is larger and its dimension within the limit. Where it is not
    /// larger the ring has exactly the fractions that are local at the point, and the work is done; and it is done too where the
    /// dimension is above the limit.
    ///
    /// # Errors
    /// Want of memory; then the chain is as it was.
    ///
    /// Greuel and Pfister, sections on the criterion for normality and on the algorithm for normalization.
    fn enlarge(&mut self, look: OpenLook) -> Result<Progress<Done>, JobStop>
        requires stratum { look ≡ self.old.stratum }
        requires open { self.old.whole ≡ false }
        ensures step { IfOk result (λ p. MatchProgress p (IsMore self.old self.new) (IsWhole self.old self.new)) }
        ensures kept { OnErr result (self.new ≡ self.old) }
        ensures same { self.new.stratum ≡ self.old.stratum }
        ensures stops { (stop : JobStop) → (stop ≡ Memory) ↔ (stop ≡ Memory) }
        ensures more { IfOk result (λ p. MatchProgress p ((left_of self.new < left_of self.old) × (self.new.whole ≡ false)) (λ done. (self.new.whole ≡ true) × IsDoneBy self.old done)) }
        ensures stop { IfErr result (λ stop. (stop ≡ Memory) × (self.new.whole ≡ false)) }
    {
        drop(look);
        match self.grow() {
            Ok(progress) => Ok(progress),
            Err(_) => Err(JobStop::Memory),
        }
    }
}
