// The laws of books: each function has an empty body, and its contract is the law.
ghost use Rattle.join_book.specs.Sums.{SumsDependOnStrata};

/// The sum of a book depends on the set of its settled strata alone.
pub fn sums_depend_on_strata()
    ensures { SumsDependOnStrata }
{}
