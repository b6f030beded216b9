// Corners in a rising list, and a factor less of a monomial.
ghost use Rattle.std.specs.Prelude.{◌≡◌, ℕ, ◌<◌, ◌≤◌, length, slice_index, slice_index_or, IfSome, IsNone, Contains};
ghost use Rattle.monomials.specs.Mono.{IsMono, times, total_degree, unit, variable};
ghost use Rattle.polys.specs.Terms.{IsAffine};
ghost use Rattle.standard_monomials.specs.Standard.{IsRising};

use monomials::Mono;

// The number of the monomial in the rising list.
pub(crate) fn position(basis: &[Mono], m: &Mono) -> Option<usize>
    requires { IsRising basis.now }
    ensures some { IfSome result (λ i. (i < length basis.now) × (slice_index_or basis.now i unit ≡ m.now)) }
    ensures none { IsNone result → Contains basis.now m.now → ⊥ }
{
    match basis.binary_search_by(|w| Mono::cmp_dp(w, m)) {
        Ok(i) => Some(i),
        Err(_) => None,
    }
}

// A variable that divides the monomial: the one that is preferred, if it does.
fn variable_in(m: &Mono, preferred: u32, variables: u32) -> u32
    requires preferred { preferred < variables }
    requires variables { variables ≤ 6 }
    requires affine { IsAffine variables m.now }
    requires degree { 0 < total_degree m.now.exponents }
    ensures among { result < variables }
    ensures divides { 0 < slice_index m.now.exponents result }
{
    if m.exponent(preferred) > 0 {
        return preferred;
    }
    for v in 0..variables {
        if m.exponent(v) > 0 {
            return v;
        }
    }
    preferred
}

// A monomial by one of its variables and the other factor.
#[derive(Clone, Copy)]
pub(crate) struct Factors {
    pub(crate) variable: u32,
    pub(crate) factor: Mono,
}

// The monomial by one of its variables, the preferred one if that divides it.
pub(crate) fn by_variable(m: &Mono, preferred: u32, variables: u32) -> Factors
    requires preferred { preferred < variables }
    requires variables { variables ≤ 6 }
    requires affine { IsAffine variables m.now }
    requires degree { 0 < total_degree m.now.exponents }
    ensures among { result.variable < variables }
    ensures product { times result.factor (variable result.variable) ≡ m.now }
    ensures known { IsMono result.factor }
{
    let variable = variable_in(m, preferred, variables);
    let factor = Mono::quotient(m, &Mono::var(variable));
    Factors { variable, factor }
}
