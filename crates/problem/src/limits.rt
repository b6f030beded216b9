// The limits of a problem and of its text.

/// The most letters of a ring.
pub const MAX_LETTERS: usize = 6;

/// The most generators of an ideal.
pub const MAX_GENERATORS: usize = 12;

/// The most `at` statements.
pub const MAX_STATEMENTS: usize = 16;

/// The most polynomials of an `at` statement.
pub const MAX_POINT_POLYNOMIALS: usize = 12;

/// The most open parentheses at one place.
pub const MAX_NESTING: usize = 100;

/// The most digits of a number in an expression.
pub const MAX_DIGITS: usize = 18;

/// The most terms of a value.
pub const MAX_TERMS: usize = 2000;

/// The greatest degree of a value.
pub const MAX_VALUE_DEGREE: u32 = 60;

/// A number above all characteristics, as which the greater numbers are read too.
pub const NO_CHARACTERISTIC: u32 = 40000;
