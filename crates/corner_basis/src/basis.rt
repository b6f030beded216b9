// The reduced basis, by the relations between the monomials.
ghost use Rattle.std.specs.Prelude.{◌≡◌, ◌≢◌, ◌<◌, ◌≤◌, [], ◌∷◌, ◌++◌, ◌-◌, length, map, replicate, slice_set, All, IfOk, OnOk};
ghost use Rattle.lane_rows.specs.Rows.{AreResidues};
ghost use Rattle.polys.specs.Poly.{IsVector, terms_of};
ghost use Rattle.polys.specs.Ideal.{number_combination};
ghost use Rattle.polys.specs.Curve.{IsOver};
ghost use Rattle.polys.specs.Reduced.{IsReducedBasis};
ghost use Rattle.digit_space.specs.Model.{IsDigitIn, IsIdealIn};
ghost use Rattle.standard_monomials.specs.Standard.{IsRising, polynomial_of};
ghost use Rattle.corner_basis.specs.Fronts.{IsFrontIdeal, IsFrontIn};
ghost use Rattle.row_space.specs.Subspace.{FitsIn};
ghost use Rattle.corner_basis.specs.Staircase.{IsNormalRow};
ghost use Rattle.corner_basis.specs.Tried.{AreTried, HasRelations, IsFront, IsMember};

use crate::front::Front;
use crate::staircase::{Staircase, zero_row};
use digit_space::Digits;
use lists::{List, NoMemory};
use monomials::Mono;
use polys::{Poly, Term};
use prime_field::Prime;
use row_space::Space;
use std::alloc::Global;

// Puts the term at the end, unless its coefficient is 0.
fn push_some(terms: &mut Vec<Term>, term: Term) -> Result<(), NoMemory>
    ensures zero { OnOk result (term.coeff ≡ 0 → terms.new.items ≡ terms.old.items) }
    ensures other { OnOk result (term.coeff ≢ 0 → terms.new.items ≡ terms.old.items ++ term ∷ []) }
{
    if term.coeff != 0 {
        terms.push(term)?;
    }
    Ok(())
}

// The lead with the coefficient 1, and the monomials of the rising list with these coefficients, as far as they are not 0.
fn with_lower(
    alloc: Global,
    prime: Prime,
    lead: Mono,
    coefficients: &[u32],
    lower: &[Mono],
) -> Result<Poly, NoMemory>
    requires count { length coefficients.now ≡ length lower.now }
    requires residues { AreResidues prime coefficients.now }
    requires rising { IsRising lower.now }
    requires falls { IsVector prime (record { coeff = 1; mono = lead } ∷ number_combination prime coefficients.now (map polynomial_of lower.now)) }
    ensures prime { IfOk result (λ f. f.prime ≡ prime) }
    ensures terms { IfOk result (λ f. f.terms ≡ record { coeff = 1; mono = lead } ∷ number_combination prime coefficients.now (map polynomial_of lower.now)) }
{
    let mut terms = Vec::new(alloc);
    terms.push(Term {
        coeff: 1,
        mono: lead,
    })?;
    let mut i = lower.len();
    while i > 0 {
        i -= 1;
        let term = Term {
            coeff: coefficients[i],
            mono: lower[i],
        };
        push_some(&mut terms, term)?;
    }
    Ok(Poly::of_terms(prime, terms))
}

// The row that is -1 at the place and 0 elsewhere.
fn negative_unit(
    alloc: Global,
    prime: Prime,
    length: usize,
    place: usize,
) -> Result<Vec<u32>, NoMemory>
    requires { place < length }
    ensures { IfOk result (λ row. row.items ≡ slice_set (replicate length 0) place (prime - 1)) }
{
    let mut row = zero_row(alloc, length)?;
    row[place] = prime.get() - 1;
    Ok(row)
}

// The one row that differs by a relation from the row that is -1 at the place, and is 0 at every pivot.
fn normal_row(
    alloc: Global,
    relations: &Space,
    length: usize,
    place: usize,
) -> Result<List<u32>, NoMemory>
    requires width { relations.now.width ≡ length }
    requires place { place < length }
    ensures fits { IfOk result (λ row. FitsIn relations.now row) }
    ensures only { IfOk result (λ row. IsNormalRow relations.now (slice_set (replicate length 0) place (relations.now.prime - 1)) row) }
{
    let mut row = negative_unit(alloc, relations.prime(), length, place)?;
    relations.reduce(row.as_mut_slice());
    Ok(List::of_vec(row))
}

// The member of the ideal with the lead number `i` whose other monomials are no leads. The relations are those between the
// leads and then the other monomials.
fn member(front: &Front, found: &Staircase, relations: &Space, i: usize) -> Result<Poly, NoMemory>
    requires front { IsFront front.now }
    requires tried { AreTried front.now found.now }
    requires relations { HasRelations front.now found.now relations.now }
    requires i { i < length found.now.leads }
    ensures prime { IfOk result (λ f. f.prime ≡ front.now.digits.now.curve.prime) }
    ensures member { IfOk result (λ f. IsMember front.now found.now i f.terms) }
{
    let alloc = front.digits.allocator();
    let _entries = front.entries();
    let _rows = relations.rows();
    let leads = found.leads.as_slice();
    let standard = found.standard.as_slice();
    let row = normal_row(alloc, relations, leads.len() + standard.len(), i)?;
    let coefficients = &row.as_slice()[leads.len()..];
    with_lower(alloc, relations.prime(), leads[i], coefficients, standard)
}

/// The reduced basis of the ideal of all polynomials whose first `t` blocks of digits are in the space, a space of rows of N t
/// residues, each polynomial over the curve's ring. Where N or t is 0, it is the list of 1.
///
/// The monomials are tried in rising order, multiples of leads left out, and a monomial is a lead where its digits are in the
/// span of the space and of those of smaller monomials. Then the tails of the L leads found are read off the relations between
/// all monomials found. For each monomial tried it takes a product by a variable and at most 2 N t multiples of a row of N t
/// entries, and for the relations at most 2 (N t + L)^2 multiples of rows of 2 N t + L entries.
pub fn reduced_basis_of_front(
    digits: &Digits,
    t: u32,
    space: &Space,
) -> Result<List<Poly>, NoMemory>
    requires t { t ≤ digits.now.depth }
    requires ideal { IsFrontIdeal digits.now t space.now }
    ensures over { IfOk result (λ qs. All (IsOver digits.now.curve.prime digits.now.curve.variables) qs) }
    ensures reduced { IfOk result (λ qs. IsReducedBasis digits.now.curve.prime digits.now.curve.variables (IsFrontIn digits.now t space.now) (terms_of qs)) }
{
    let front = Front {
        digits,
        blocks: t,
        space,
    };
    let _entries = front.entries();
    let _rows = space.rows();
    let found = Staircase::of_front(&front)?;
    let matrix = found.matrix(&front)?;
    let relations = space.preimage(matrix.as_slice())?;
    let mut basis = List::new(digits.allocator());
    for i in 0..found.leads.len() {
        basis.push(member(&front, &found, &relations, i)?)?;
    }
    Ok(basis)
}

/// The reduced basis of the ideal of all polynomials whose digits are in the space, each polynomial over the curve's ring. The
/// space is closed under the variables. Where the dimension N or the depth T is 0, it is the list of 1.
///
/// It takes the steps of [`reduced_basis_of_front`] with all T blocks.
pub fn reduced_basis_of(digits: &Digits, space: &Space) -> Result<List<Poly>, NoMemory>
    requires { IsIdealIn digits.now space.now }
    ensures over { IfOk result (λ qs. All (IsOver digits.now.curve.prime digits.now.curve.variables) qs) }
    ensures reduced { IfOk result (λ qs. IsReducedBasis digits.now.curve.prime digits.now.curve.variables (IsDigitIn digits.now space.now) (terms_of qs)) }
{
    reduced_basis_of_front(digits, digits.depth(), space)
}
