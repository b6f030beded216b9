// A plan from the bases of a curve.
ghost use Rattle.std.specs.Prelude.{◌≡◌, ◌<◌, ◌≤◌, length, All, IfOk};
ghost use Rattle.polys.specs.Curve.{Fit, data_of};
ghost use Rattle.polys.specs.Terms.{IsAffine};
ghost use Rattle.digit_laws.specs.Digits.{AreCornersOf};
ghost use Rattle.digit_plan.specs.Lifts.{IsLiftedOf, curve_of_lifted};
ghost use Rattle.digit_plan.specs.Planned.{IsPlan, IsPlay};
ghost use Rattle.digit_plan.specs.Playing.{AreClosed};

use crate::plan::Plan;
use crate::planning::{border_of, lifts_of, order_of, outer_of};
use crate::rules::{Play, products_of, rules_of};
use lift_colon::Lifted;
use lists::{List, NoMemory};
use monomials::Mono;
use polys::Curve;
use std::alloc::Global;
use std::sync::Arc;

// The monomials in play for a curve with these corners.
fn play_of(alloc: Global, lifted: &Lifted, corners: List<Mono>) -> Result<Play, NoMemory>
    requires variables { lifted.now.variables ≤ 6 }
    requires corners { AreCornersOf (curve_of_lifted lifted.now) corners }
    requires closed { AreClosed lifted.now.variables corners }
    requires some { 0 < length corners }
    ensures play { IfOk result (IsPlay lifted.now) }
    ensures corners { IfOk result (λ play. play.corners ≡ corners) }
    ensures affine { IfOk result (λ play. All (IsAffine lifted.now.variables) play.border) }
{
    let variables = lifted.variables();
    let order = order_of(alloc, variables, corners.as_slice())?;
    let border = border_of(alloc, variables, corners.as_slice())?;
    let lifts = lifts_of(alloc, lifted)?;
    let outer = outer_of(
        alloc,
        lifts.as_slice(),
        order.as_slice(),
        corners.as_slice(),
        border.as_slice(),
    )?;
    Ok(Play {
        order,
        corners,
        border,
        lifts,
        outer,
    })
}

/// The plan for a curve with these corners: its bases are those of the curve, and each lead is lifted once.
///
/// # Errors
/// Want of memory.
///
/// Greuel and Pfister, sections on standard bases and on lifts.
pub fn plan_of(
    alloc: Global,
    curve: &Arc<Curve>,
    lifted: &Lifted,
    corners: List<Mono>,
) -> Result<Plan, NoMemory>
    requires fit { Fit curve.now.value }
    requires lifted { IsLiftedOf curve.now.value lifted.now }
    requires corners { AreCornersOf (data_of curve.now.value) corners }
    requires some { 0 < length corners }
    ensures plan { IfOk result IsPlan }
    ensures curve { IfOk result (λ plan. plan.curve.value ≡ curve.now.value) }
    ensures corners { IfOk result (λ plan. plan.corners ≡ corners) }
{
    let _basis = lifted.ideal_basis();
    let _p = lifted.prime().get();
    let play = play_of(alloc, lifted, corners)?;
    let products = products_of(
        alloc,
        lifted.variables(),
        play.corners.as_slice(),
        play.border.as_slice(),
    )?;
    let border_rules = rules_of(alloc, lifted, &play, true, play.border.as_slice())?;
    let outer_rules = rules_of(alloc, lifted, &play, false, play.outer.as_slice())?;
    let curve = Arc::try_clone(curve)?;
    let Play {
        order: _,
        corners,
        border,
        lifts: _,
        outer,
    } = play;
    Ok(Plan {
        curve,
        corners,
        products,
        border,
        border_rules,
        outer,
        outer_rules,
    })
}
