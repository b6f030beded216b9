// Laws of the module of a denominator: each function has an empty body, and its contract is the law.
ghost use Rattle.denominator_module.specs.Laws.{ModuleIsGraded, PartsLaws, LiftLaws, RegularByColon};

/// The module is spanned by homogeneous vectors.
pub fn denominators_have_graded_modules()
    ensures { ModuleIsGraded }
{}

/// The first parts of a basis generate the ideal of the denominator and the generators, the second parts the colon
/// ideal.
pub fn parts_generate_sums_and_colons()
    ensures { PartsLaws }
{}

/// The normal form of a lifted polynomial decides whether it is in the ideal of the denominator and the generators, and
/// gives its quotient.
pub fn normal_forms_give_lifts()
    ensures { LiftLaws }
{}

/// A denominator is regular exactly where the colon ideal is the ideal.
pub fn colons_decide_regularity()
    ensures { RegularByColon }
{}
