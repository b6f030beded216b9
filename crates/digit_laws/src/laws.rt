// The laws of digits: each function has an empty body, and its contract is the law.
ghost use Rattle.digit_laws.specs.Laws.{DigitLaws, BlockLaws, CornersAreUnique, SpacesAreIdeals};

/// Every polynomial has one row of digits, sums and multiples are those of rows, and equal digits mean equal classes.
pub fn digits_are_coordinates()
    ensures laws { DigitLaws }
    ensures corners { CornersAreUnique }
    ensures blocks { BlockLaws }
{}

/// A space of rows that is closed under the variables is an ideal, and its rows are a basis modulo A of the fractions with
/// numerators in it.
pub fn spaces_are_ideals()
    ensures { SpacesAreIdeals }
{}
