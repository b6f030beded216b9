// The closure at a book's points.
ghost use Rattle.std.specs.Prelude.{◌≡◌, ◌≤◌, map, All, IfOk};
ghost use Rattle.polys.specs.Curve.{IsOver, data_of};
ghost use Rattle.polys.specs.Poly.{terms_of};
ghost use Rattle.curve_model.specs.Closure.{Closure};
ghost use Rattle.curve_model.specs.Point.{basis_of};
ghost use Rattle.digit_plan.specs.Lifts.{IsLiftedOf};
ghost use Rattle.join_book.specs.Whole.{IsWhole};
ghost use Rattle.over_laws.specs.Over.{HaveSameFractions};
ghost use Rattle.curve_answer.specs.Deltas.{IsWithin};

use digit_make::make;
use join_book::Book;
use lift_colon::Lifted;
use lists::NoMemory;
use local_closure::{LocalClosure, closure_of};
use over_module::Over;
use std::alloc::Global;

// The sum of the book over the least power of d, which is at most the limit of delta.
fn least_sum(book: &Book) -> Result<Over, NoMemory>
    requires whole { IsWhole book.now.curve book.now.points book.now.limit book.now }
    requires within { IsWithin (data_of book.now.curve) book.now.limit (map basis_of book.now.points) }
    ensures curve { IfOk result (λ o. o.curve ≡ book.now.curve) }
    ensures same { IfOk result (λ o. HaveSameFractions book.now.sum o) }
    ensures low { IfOk result (λ o. o.power ≤ 64) }
{
    let least = book.sum().least_power()?;
    Ok(least)
}

/// The least power of d and the reduced basis of the numerators of all fractions that are local at the book's points.
///
/// It makes digits of the depth of that power, which is at most the greatest delta.
///
/// # Errors
/// Want of memory.
pub(crate) fn closure_at(
    alloc: Global,
    lifted: &Lifted,
    book: &Book,
) -> Result<LocalClosure, NoMemory>
    requires whole { IsWhole book.now.curve book.now.points book.now.limit book.now }
    requires within { IsWithin (data_of book.now.curve) book.now.limit (map basis_of book.now.points) }
    requires lifted { IsLiftedOf book.now.curve lifted.now }
    ensures over { IfOk result (λ made. All (IsOver book.now.curve.prime book.now.curve.variables) made.numerators) }
    ensures closure { IfOk result (λ made. Closure (data_of book.now.curve) (map basis_of book.now.points) made.power (terms_of made.numerators)) }
{
    let _known = book.sum();
    let least = least_sum(book)?;
    let digits = make(alloc, book.curve(), lifted, least.power())?;
    closure_of(&digits, &least)
}
