// Texts tell points.
ghost use Rattle.std.specs.Prelude.{◌≡◌, length, All};
ghost use Rattle.polys.specs.Curve.{data_of};
ghost use Rattle.polys.specs.Poly.{IsVector};
ghost use Rattle.named_points.specs.Naming.{AreNamed, HasKnownTerms};
ghost use Rattle.named_points.specs.Ordering.{HaveDistinctTexts, IsListedInOrder};

use curve_model::Point;
use digit_space::Digits;
use poly_text::texts_tell_polynomials;
use polys::Poly;
use problem::Problem;

// What each polynomial says of its terms.
fn know_terms(polys: &[Poly])
    ensures { All (λ f. IsVector f.prime f.terms) polys.now }
{
    for f in polys {
        let _terms = f.terms();
    }
}

// What the polynomials of each point say of their terms: the degrees are bounded, so that texts tell the polynomials.
fn know_points(points: &[Point])
    ensures { All HasKnownTerms points.now }
{
    for point in points {
        know_terms(point.basis.as_slice());
    }
}

// The named points have distinct texts, and in the order of their texts they are the list that the problem asks for. It
// reads the points and changes nothing.
pub(crate) fn texts_tell_points(problem: &Problem, digits: &Digits, points: &[Point])
    requires prime { digits.now.curve.prime ≡ problem.now.prime }
    requires variables { digits.now.curve.variables ≡ length problem.now.letters }
    requires named { AreNamed problem.now (data_of digits.now.curve) points.now }
    ensures distinct { HaveDistinctTexts problem.now.letters points.now }
    ensures listed { IsListedInOrder problem.now (data_of digits.now.curve) points.now }
{
    texts_tell_polynomials();
    let _p = problem.prime.get();
    let _letters = problem.letters.as_slice();
    know_points(points);
}
