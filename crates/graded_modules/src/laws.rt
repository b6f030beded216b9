// Laws of graded modules and their bases: each function has an empty body, and its contract is the law.
ghost use Rattle.graded_modules.specs.Examples.{TwoVariables, SVectorByHand, ShiftByHand};
ghost use Rattle.graded_modules.specs.Laws.{ModuleLaws, SVectorLaws, SettledLaws, BasisLaws, ReducedByLeads, RemainderIsNormal};

/// A module holds its generators, sums, differences and multiples.
pub fn modules_are_closed()
    ensures { ModuleLaws }
{}

/// An S-vector is homogeneous, lies below the least common multiple of the leads, and is in the module.
pub fn s_vectors_lie_below()
    ensures { SVectorLaws }
{}

/// What settles a pair: a division that leaves nothing, or whose remainder is added, and the chain and product
/// criteria.
pub fn pairs_are_settled()
    ensures { SettledLaws }
{}

/// Where the S-vectors below a degree are settled, the leads below it are known; two leads with a least common multiple
/// above the cap show that the module is deep, and where there are none the basis is one in all degrees (Buchberger's
/// criterion).
pub fn settled_pairs_give_all_leads()
    ensures { BasisLaws }
{}

/// Members with all leads, none superfluous, whose lower monomials no lead divides, are the reduced basis.
pub fn bases_are_reduced_by_their_leads()
    ensures { ReducedByLeads }
{}

/// A remainder by a reduced basis is the normal form.
pub fn remainders_are_normal_forms()
    ensures { RemainderIsNormal }
{}

/// Examples by hand: an S-vector of two polynomials; a vector that is homogeneous for one shift alone; and the ideal of x
/// and y, which is deep under the degree 1 and not under 2.
pub fn examples_by_hand()
    ensures s_vector { SVectorByHand }
    ensures shift { ShiftByHand }
    ensures deep { TwoVariables }
{}
