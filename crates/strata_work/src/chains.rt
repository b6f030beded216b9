// What the chains of one curve share.
ghost use Rattle.std.specs.Prelude.{◌≡◌, ◌≤◌, IfOk};
ghost use Rattle.polys.specs.Curve.{Fit, data_of};
ghost use Rattle.curve_model.specs.Point.{IsPointOf};
ghost use Rattle.digit_plan.specs.Lifts.{IsLiftedOf};
ghost use Rattle.stratum_chain.specs.Chain.{IsStarted};
ghost use Rattle.strata_work.specs.Chains.{work_data};

use curve_model::Point;
use digit_make::{extended, make};
use digit_space::Digits;
use lift_colon::Lifted;
use lists::NoMemory;
use polys::Curve;
use std::alloc::Global;
use std::marker::Model;
use std::sync::Arc;
use stratum_chain::Chain;

/// What the chains of one curve share: its digits of depth 2, which serve the powers 0 of d, those of depth 4, which serve the
/// power 1, and the lifts for deeper ones.
#[derive(Drop)]
pub struct Chains {
    curve: Arc<Curve>,
    lifted: Arc<Lifted>,
    digits: Arc<Digits>,
    deeper: Arc<Digits>,
    limit: u32,
}

impl Model for Chains {
    ghost use Rattle.strata_work.specs.Chains.{WorkData, AreShared, work_data};

    ghost Value = { WorkData };

    ghost view = { λ c. work_data c.curve.value c.limit };

    ghost invariant = { λ c. AreShared c.curve.value c.limit c.lifted.value c.digits.value c.deeper.value };
}

impl Chains {
    /// The digits of the curve, made once: those of depth 2, and from their rows those of depth 4.
    ///
    /// The curve is fit, `lifted` is of its ideal and denominator, and the limit of delta is 1 to 64. It takes one table of digits
    /// of each of the two depths, however many chains are started.
    ///
    /// # Errors
    /// Want of memory.
    pub fn new(
        alloc: Global,
        curve: Arc<Curve>,
        lifted: Arc<Lifted>,
        limit: u32,
    ) -> Result<Chains, NoMemory>
        requires fit { Fit curve.value }
        requires lifted { IsLiftedOf curve.value lifted.value }
        requires limit { (1 ≤ limit) × (limit ≤ 64) }
        ensures { IfOk result (λ chains. chains ≡ work_data curve.value limit) }
    {
        let digits = make(alloc, &curve, &lifted, 2)?;
        let deeper = extended(&digits, &lifted, 4)?;
        Ok(Chains {
            curve,
            lifted,
            digits: Arc::new(alloc, digits)?,
            deeper: Arc::new(alloc, deeper)?,
            limit,
        })
    }

    /// The curve.
    pub fn curve(&self) -> &Arc<Curve>
        ensures { result.now.value ≡ self.now.curve }
    {
        &self.curve
    }

    /// The chain of the point, which begins at A. It takes no digits of its own, and makes none before its ring needs the power 2
    /// of d.
    ///
    /// # Errors
    /// Want of memory.
    pub fn start(&self, point: Point, stratum: u32) -> Result<Chain, NoMemory>
        requires { IsPointOf (data_of self.now.curve) point }
        ensures { IfOk result (IsStarted self.now.curve point stratum self.now.limit) }
    {
        let digits = Arc::try_clone(&self.digits)?;
        let deeper = Arc::try_clone(&self.deeper)?;
        let lifted = Arc::try_clone(&self.lifted)?;
        Chain::of_digits(digits, Some(deeper), lifted, point, stratum, self.limit)
    }
}
