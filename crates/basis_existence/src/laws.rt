// Laws of ideals of finite dimension: each function has an empty body, and its contract is the law.
ghost use Rattle.basis_existence.specs.Laws.{StandardBasesAreReduced, LeadsAreDecided, CornersExist, ReducedBasesExist, LargerIdealsAreFinite};

/// Each ideal that has a standard basis has a reduced one.
pub fn standard_bases_are_reduced()
    ensures { StandardBasesAreReduced }
{}

/// An ideal of finite dimension has corners and a reduced basis, and it is decided which monomials are leads.
pub fn finite_ideals_have_reduced_bases()
    ensures leads { LeadsAreDecided }
    ensures corners { CornersExist }
    ensures reduced { ReducedBasesExist }
{}

/// What holds an ideal of finite dimension has a finite dimension, and no greater one.
pub fn larger_ideals_are_finite()
    ensures { LargerIdealsAreFinite }
{}
