// The choice of a denominator.
ghost use Rattle.std.specs.Prelude.{◌≡◌, ◌≢◌, ◌↔◌, ◌⊎◌, ◌≤◌, ℕ, All, Err, IfOk, IfErr, IfSome, IsNone, MatchResult, Some, None, length};
ghost use Rattle.polys.specs.declared.curve.TheConstants.{MAX_DENOMINATOR_DEGREE};
ghost use Rattle.jacobian_pick.specs.declared.jacobian.TheConstants.{MAX_MINOR_DEGREE};
ghost use Rattle.jacobian_pick.specs.Candidates.{jacobian_of};
ghost use Rattle.jacobian_pick.specs.Choice.{IsPassedOver, IsFoundMultiple, IsFoundFirst, HasDeepIdeal, HasProperIdeal, IsGood};
ghost use Rattle.jacobian_pick.specs.Choice.{IsChosen, IsReason, IsCause, IsLiftedOf, IsPicked, curve_of_lifted};
ghost use Rattle.jacobian_pick.specs.Lists.{IsBasisOf, IsUpTo};
ghost use Rattle.problem.specs.Problem.{HasFitPolynomials, problem_data, curve_of};
ghost use Rattle.jacobian_pick.specs.declared.choosing.PickStop.TheVariants.{Memory};
ghost use Rattle.lift_colon.specs.Lifted.{IsLifted};
ghost use Rattle.module_basis.specs.declared.cap.TheConstants.{MAX_CAP};
ghost use Rattle.polys.specs.Poly.{terms_of};
ghost use Rattle.polys.specs.Curve.{Fit, HasDimModulo, IsOver, data_of};
ghost use Rattle.polys.specs.declared.term.Term.{Term};

use crate::listing::{entries, first_list, number_sums, variable_sums};
use crate::membership::{is_member, variables_of};
use lift_colon::{Dimension, Lifted};
use lists::{List, NoMemory};
use module_basis::{BasisStop, MAX_CAP};
use polys::{Poly, copied};
use problem::Problem;
use std::alloc::Global;
use thiserror::Error;

/// Why a problem has no denominator.
#[derive(Clone, Copy, Debug, Drop, PartialEq, Eq, Error)]
pub enum PickStop {
    /// The homogenised generators are deep under the cap.
    #[error("deep ideal")]
    Deep,
    /// The polynomial 1 is in the ideal.
    #[error("unit ideal")]
    Unit,
    /// The module of the denominator is deep under the cap.
    #[error("deep denominator")]
    DenominatorDeep,
    /// The denominator is a zero divisor modulo the ideal.
    #[error("zero divisor")]
    ZeroDivisor,
    /// The dimension modulo the ideal and the denominator is infinite.
    #[error("infinite")]
    Infinite,
    /// This dimension is finite and above 256.
    #[error("wide")]
    Wide,
    /// None is handed in, and no candidate is good.
    #[error("no denominator")]
    NoDenominator,
    /// No memory was to be had.
    #[error("no memory")]
    Memory,
}

impl From<NoMemory> for PickStop {
    ghost use Rattle.std.specs.Prelude.{◌≡◌};
    ghost use Rattle.jacobian_pick.specs.declared.choosing.PickStop.TheVariants.{Memory};

    ghost from_gives = { λ _ stop. stop ≡ Memory };

    fn from(_: NoMemory) -> PickStop {
        PickStop::Memory
    }
}

/// The reduced basis of the ideal of the problem.
pub fn ideal_basis(alloc: Global, problem: &Problem, cap: u32) -> Result<List<Poly>, PickStop>
    requires ready { HasFitPolynomials problem.now }
    requires some_cap { 1 ≤ cap }
    requires cap { cap ≤ MAX_CAP }
    ensures basis { IfOk result (λ basis. IsBasisOf problem.now basis) }
    ensures not_deep { IfOk result (λ basis. HasDeepIdeal (problem_data problem.now) cap → ⊥) }
    ensures cause { IfErr result (λ stop. IsCause (problem_data problem.now) cap stop) }
{
    let generators = problem.generators.as_slice();
    match lift_colon::ideal_basis(alloc, problem.prime, variables_of(problem), generators, cap) {
        Ok(basis) => Ok(basis),
        Err(BasisStop::Deep) => Err(PickStop::Deep),
        Err(BasisStop::Memory) => Err(PickStop::Memory),
    }
}

// The bases for the denominator `d`, or why it is not good.
fn tried(
    alloc: Global,
    problem: &Problem,
    basis: &[Poly],
    d: &Poly,
    cap: u32,
) -> Result<Lifted, PickStop>
    requires ready { HasFitPolynomials problem.now }
    requires basis { IsBasisOf problem.now basis.now }
    requires denominator { IsOver problem.now.prime (length problem.now.letters) d.now }
    requires not_deep { HasDeepIdeal (problem_data problem.now) cap → ⊥ }
    requires some_cap { 1 ≤ cap }
    requires cap { cap ≤ MAX_CAP }
    ensures lifted { IfOk result (λ l. IsLiftedOf (problem_data problem.now) l) }
    ensures known { IfOk result (λ l. IsLifted l) }
    ensures denominator { IfOk result (λ l. l.denominator ≡ d.now) }
    ensures good { IfOk result (λ l. IsGood (problem_data problem.now) cap d.now.terms) }
    ensures reason { IfErr result (λ stop. IsReason (problem_data problem.now) cap d.now.terms stop) }
{
    let _prime = problem.prime.get();
    let generators = problem.generators.as_slice();
    let lifted = match Lifted::over_basis(
        alloc,
        problem.prime,
        variables_of(problem),
        generators,
        copied(alloc, basis)?,
        d,
        cap,
    ) {
        Ok(lifted) => lifted,
        Err(BasisStop::Deep) => return Err(PickStop::DenominatorDeep),
        Err(BasisStop::Memory) => return Err(PickStop::Memory),
    };
    let _basis = lifted.ideal_basis();
    if !lifted.is_regular()? {
        return Err(PickStop::ZeroDivisor);
    }
    match lifted.small_dimension() {
        Dimension::Finite(_) => Ok(lifted),
        Dimension::Wide => Err(PickStop::Wide),
        Dimension::Infinite => Err(PickStop::Infinite),
    }
}

// The bases for the monic multiple of `f`, or `None` where `f` is in the ideal or this multiple is not good.
fn good(
    alloc: Global,
    problem: &Problem,
    basis: &[Poly],
    f: &Poly,
    cap: u32,
) -> Result<Option<Lifted>, NoMemory>
    requires ready { HasFitPolynomials problem.now }
    requires basis { IsBasisOf problem.now basis.now }
    requires low { IsUpTo problem.now.prime (length problem.now.letters) MAX_DENOMINATOR_DEGREE f.now }
    requires not_deep { HasDeepIdeal (problem_data problem.now) cap → ⊥ }
    requires some_cap { 1 ≤ cap }
    requires cap { cap ≤ MAX_CAP }
    ensures found { IfOk result (λ found. IfSome found (λ l. IsFoundMultiple (problem_data problem.now) cap f.now.terms l)) }
    ensures none { IfOk result (λ found. IsNone found → IsPassedOver (problem_data problem.now) cap f.now.terms) }
{
    let _prime = problem.prime.get();
    if is_member(problem, basis, f)? {
        return Ok(None);
    }
    let monic = f.monic()?;
    match tried(alloc, problem, basis, &monic, cap) {
        Ok(lifted) => Ok(Some(lifted)),
        Err(stop) => {
            if stop == PickStop::Memory {
                return Err(NoMemory);
            }
            Ok(None)
        }
    }
}

// The bases for the first good one of the list, or `None` where none is good. What comes after it is not looked at.
fn first_good(
    alloc: Global,
    problem: &Problem,
    basis: &[Poly],
    list: &[Poly],
    cap: u32,
) -> Result<Option<Lifted>, NoMemory>
    requires ready { HasFitPolynomials problem.now }
    requires basis { IsBasisOf problem.now basis.now }
    requires list { All (IsUpTo problem.now.prime (length problem.now.letters) MAX_DENOMINATOR_DEGREE) list.now }
    requires not_deep { HasDeepIdeal (problem_data problem.now) cap → ⊥ }
    requires some_cap { 1 ≤ cap }
    requires cap { cap ≤ MAX_CAP }
    ensures found { IfOk result (λ found. IfSome found (λ l. IsFoundFirst (problem_data problem.now) cap (terms_of list.now) l)) }
    ensures none { IfOk result (λ found. IsNone found → All (IsPassedOver (problem_data problem.now) cap) (terms_of list.now)) }
{
    for f in list {
        match good(alloc, problem, basis, f, cap)? {
            Some(lifted) => return Ok(Some(lifted)),
            None => {}
        }
    }
    Ok(None)
}

// The bases for the first good sum, where no entry of the Jacobian matrix is good.
fn by_sums(
    alloc: Global,
    problem: &Problem,
    basis: &[Poly],
    entries: &[Poly],
    cap: u32,
) -> Result<Lifted, PickStop>
    requires ready { HasFitPolynomials problem.now }
    requires basis { IsBasisOf problem.now basis.now }
    requires none { problem.now.denominator ≡ None }
    requires low { All (IsUpTo problem.now.prime (length problem.now.letters) MAX_MINOR_DEGREE) entries.now }
    requires exact { terms_of entries.now ≡ jacobian_of (problem_data problem.now) }
    requires passed { All (IsPassedOver (problem_data problem.now) cap) (terms_of entries.now) }
    requires proper { HasProperIdeal (problem_data problem.now) cap }
    requires some_cap { 1 ≤ cap }
    requires cap { cap ≤ MAX_CAP }
    ensures found { IfOk result (λ l. IsPicked (problem_data problem.now) cap l) }
    ensures cause { IfErr result (λ stop. IsCause (problem_data problem.now) cap stop) }
{
    let first = first_list(alloc, problem, basis, entries)?;
    let sums = number_sums(alloc, problem, first.as_slice())?;
    match first_good(alloc, problem, basis, sums.as_slice(), cap)? {
        Some(lifted) => return Ok(lifted),
        None => {}
    }
    let others = variable_sums(alloc, problem, first.as_slice())?;
    match first_good(alloc, problem, basis, others.as_slice(), cap)? {
        Some(lifted) => Ok(lifted),
        None => Err(PickStop::NoDenominator),
    }
}

// The bases for the first good candidate. The candidates are made one after another, and none after it.
fn by_candidates(
    alloc: Global,
    problem: &Problem,
    basis: &[Poly],
    cap: u32,
) -> Result<Lifted, PickStop>
    requires ready { HasFitPolynomials problem.now }
    requires basis { IsBasisOf problem.now basis.now }
    requires none { problem.now.denominator ≡ None }
    requires proper { HasProperIdeal (problem_data problem.now) cap }
    requires some_cap { 1 ≤ cap }
    requires cap { cap ≤ MAX_CAP }
    ensures found { IfOk result (λ l. IsPicked (problem_data problem.now) cap l) }
    ensures cause { IfErr result (λ stop. IsCause (problem_data problem.now) cap stop) }
{
    let list = entries(alloc, problem)?;
    match first_good(alloc, problem, basis, list.as_slice(), cap)? {
        Some(lifted) => Ok(lifted),
        None => by_sums(alloc, problem, basis, list.as_slice(), cap),
    }
}

// The bases for the denominator that is handed in.
fn by_hand(
    alloc: Global,
    problem: &Problem,
    basis: &[Poly],
    d: &Poly,
    cap: u32,
) -> Result<Lifted, PickStop>
    requires ready { HasFitPolynomials problem.now }
    requires basis { IsBasisOf problem.now basis.now }
    requires given { problem.now.denominator ≡ Some d.now }
    requires proper { HasProperIdeal (problem_data problem.now) cap }
    requires some_cap { 1 ≤ cap }
    requires cap { cap ≤ MAX_CAP }
    ensures found { IfOk result (λ l. IsPicked (problem_data problem.now) cap l) }
    ensures cause { IfErr result (λ stop. IsCause (problem_data problem.now) cap stop) }
{
    let _prime = problem.prime.get();
    let monic = d.monic()?;
    tried(alloc, problem, basis, &monic, cap)
}

/// The bases of the ideal of the problem and of its denominator: of the monic multiple of the one that is handed in, or
/// else of the first good candidate. A denominator is good where its module is not deep under the cap, it is regular,
/// and the dimension modulo the ideal and it is at most 256.
///
/// # Errors
/// In this order, each exactly where it says and none before it comes: `Deep` where the homogenised generators are deep
/// under the cap; `Unit` where 1 is in the ideal; for a denominator that is handed in `DenominatorDeep`, `ZeroDivisor`,
/// `Infinite`, `Wide`; `NoDenominator` where none is handed in and no candidate is good. `Memory` when out of memory.
pub fn pick(alloc: Global, problem: &Problem, cap: u32) -> Result<Lifted, PickStop>
    requires ready { HasFitPolynomials problem.now }
    requires some_cap { 1 ≤ cap }
    requires cap { cap ≤ MAX_CAP }
    ensures lifted { IfOk result (λ l. IsLiftedOf (problem_data problem.now) l) }
    ensures proper { IfOk result (λ l. HasProperIdeal (problem_data problem.now) cap) }
    ensures chosen { IfOk result (λ l. IsChosen (problem_data problem.now) cap l.denominator.terms) }
    ensures fit { IfOk result (λ l. Fit (curve_of_lifted l)) }
    // the dimension modulo the ideal and the denominator, by the bases and by the generators
    ensures dimension { IfOk result (λ l. (N : ℕ) → HasDimModulo (data_of (curve_of_lifted l)) N ↔ HasDimModulo (curve_of (problem_data problem.now) l.denominator.terms) N) }
    ensures cause { IfErr result (λ stop. IsCause (problem_data problem.now) cap stop) }
    // each cause but out of memory is answered, unless memory runs out
    ensures exact { (stop : PickStop) → stop ≢ Memory → IsCause (problem_data problem.now) cap stop → (result ≡ Err stop) ⊎ (result ≡ Err Memory) }
    // a proper ideal with a chosen denominator has it answered, unless memory runs out
    ensures complete { HasProperIdeal (problem_data problem.now) cap → (d : List Term) → IsChosen (problem_data problem.now) cap d → MatchResult result (λ l. l.denominator.terms ≡ d) (λ stop. stop ≡ Memory) }
{
    let basis = ideal_basis(alloc, problem, cap)?;
    if is_member(problem, basis.as_slice(), &Poly::one(alloc, problem.prime)?)? {
        return Err(PickStop::Unit);
    }
    match &problem.denominator {
        Some(d) => by_hand(alloc, problem, basis.as_slice(), d, cap),
        None => by_candidates(alloc, problem, basis.as_slice(), cap),
    }
}
