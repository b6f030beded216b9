// Laws of homogenising: each function has an empty body, and its contract is the law.
ghost use Rattle.homogenising.specs.Laws.{HomogenisedLaws, DehomogenisedLaws, LeadsStayLeads, ReducedByAffineLeads, ReducedHasLeads, RemainderDecides};

/// Homogenising gives a homogeneous polynomial, and setting the variable to 1 gives the polynomial back.
pub fn homogenising_is_undone()
    ensures { HomogenisedLaws }
{}

/// Where the homogenising variable becomes 1 no terms meet, and the lead stays the lead.
pub fn leads_lose_the_variable()
    ensures { DehomogenisedLaws }
{}

/// Members with all leads of a graded ideal give members with all leads of the ideal where the variable is 1.
pub fn leads_stay_leads()
    ensures { LeadsStayLeads }
{}

/// Members with all leads, none superfluous, whose lower monomials no lead divides, are the reduced basis of an ideal.
pub fn ideals_have_bases_by_leads()
    ensures { ReducedByAffineLeads }
{}

/// The lead of each member of an ideal is a multiple of a lead of the reduced basis.
pub fn reduced_bases_have_all_leads()
    ensures { ReducedHasLeads }
{}

/// A remainder that no lead divides is 0 exactly for members of the ideal.
pub fn remainders_decide_membership()
    ensures { RemainderDecides }
{}
