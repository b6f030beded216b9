// The laws of monomials, each the contract of a function that does nothing.
ghost use Rattle.monomials.specs.Laws.{DpIsTotal, ProductsKeepDp, Products, DividesItsMultiples, LeastCommonMultiple};

/// dp is a total order in which only equal monomials tie (Greuel and Pfister, section on monomial orderings).
pub fn dp_is_a_total_order()
    ensures { DpIsTotal }
{}

/// Products keep dp, and no multiple of a monomial is smaller than it.
pub fn products_keep_dp()
    ensures { ProductsKeepDp }
{}

/// Products commute and associate, 1 is neutral, and a common factor cancels.
pub fn products_are_commutative()
    ensures { Products }
{}

/// A monomial divides exactly its multiples.
pub fn divisors_are_factors()
    ensures { DividesItsMultiples }
{}

/// The least common multiple is a common multiple and divides each other one.
pub fn least_common_multiple()
    ensures { LeastCommonMultiple }
{}
