// The laws of quotients at a point: each function has an empty body, and its contract is the law.
ghost use Rattle.quotient_laws.specs.OverQuotients.{ProductSpacesHoldProducts, QuotientRowsAreAlgebras, RadicalsByRows};
ghost use Rattle.quotient_laws.specs.ProductRows.{ProductsByRows};
ghost use Rattle.quotient_laws.specs.QuotientRows.{MemberRowsSpan, QuotientRowsAreProducts};
ghost use Rattle.quotient_laws.specs.Quotients.{NilpotentsAreRadical, QuotientProductsAreAlgebras};

/// The coordinates of the products of a basis of B modulo PB are an algebra, which is B modulo PB; a fraction of B is in the
/// radical of PB exactly where the element that stands for it is nilpotent.
pub fn quotients_are_algebras()
    ensures algebra { QuotientProductsAreAlgebras }
    ensures radical { NilpotentsAreRadical }
{}

/// The sums of products of P and B over d^k are those fractions whose numerators have their digits at the depth k + 1 in the
/// space that the products of generators of P and of B span.
pub fn products_are_spaces()
    ensures members { MemberRowsSpan }
    ensures products { ProductsByRows }
    ensures modules { ProductSpacesHoldProducts }
{}

/// Rows that are a basis modulo that space, with the coordinates of their products, are an algebra, which is B modulo PB; the
/// rows that differ by the space from those of its nilpotent elements are the numerators of the radical.
pub fn rows_give_quotients()
    ensures products { QuotientRowsAreProducts }
    ensures algebra { QuotientRowsAreAlgebras }
    ensures radical { RadicalsByRows }
{}
