// Tops of polynomials: all terms above a monomial. They decide, without the whole of it, whether a power has many terms.
ghost use Rattle.std.specs.Prelude.{Option, max, take, drop, ◌≡◌, ◌+◌, ◌*◌, ◌<◌, ◌≤◌, ◌↔◌, ℕ, List, [], ◌∷◌, length, IsTrue, IfOk, IfSome, IsNone, Some, None};
ghost use Rattle.monomials.specs.declared.mono.TheConstants.{MAX_DEGREE};
ghost use Rattle.monomials.specs.Mono.{Monomial, IsMono, total_degree};
ghost use Rattle.polys.specs.declared.term.Term.{Term};
ghost use Rattle.polys.specs.Terms.{one, mul, power, degree_of, EachMono, add};
ghost use Rattle.polys.specs.Frobenius.{raised, frobenius};
ghost use Rattle.polys.specs.Poly.{IsVector, IsPlain};
ghost use Rattle.polys.specs.Top.{Above, Agrees, higher, cut_times, cut_raised, cut_degree, IsCut, IsTop, IsRightAbout, reach, KeepsTop};

use crate::Term;
use crate::terms::{one, power as whole_power, sum, term_multiple};
use monomials::Mono;
use prime_field::Prime;
use std::alloc::{AllocError, Global};
use std::cmp::Ordering;

// All terms of a polynomial above the cut, or all of them where there is no cut.
#[derive(Drop)]
pub(crate) struct Top {
    pub(crate) terms: Vec<Term>,
    pub(crate) cut: Option<Mono>,
}

// Whether the monomial is greater than the cut.
fn is_above(cut: &Option<Mono>, m: &Mono) -> bool
    ensures { IsTrue result ↔ Above cut.now m.now }
{
    match cut {
        None => true,
        Some(c) => matches!(Mono::cmp_dp(m, c), Ordering::Greater),
    }
}

// The higher cut.
fn higher(a: Option<Mono>, b: Option<Mono>) -> Option<Mono>
    requires left { IsCut a }
    requires right { IsCut b }
    ensures value { result ≡ higher a b }
    ensures known { IsCut result }
{
    let Some(m) = a else {
        return b;
    };
    let Some(w) = b else {
        return a;
    };
    match Mono::cmp_dp(&m, &w) {
        Ordering::Less => Some(w),
        _ => Some(m),
    }
}

// The cut of a product with a monomial.
fn cut_times(cut: &Option<Mono>, m: &Mono) -> Option<Mono>
    requires known { IsCut cut.now }
    requires plain { IsPlain m.now }
    requires room { cut_degree cut.now + total_degree m.now.exponents ≤ MAX_DEGREE }
    ensures value { result ≡ cut_times cut.now m.now }
    ensures known { IsCut result }
{
    match cut {
        None => None,
        Some(c) => Some(Mono::product(c, m)),
    }
}

// The number of the first terms that are above the cut.
fn above(p: Prime, cut: &Option<Mono>, terms: &[Term]) -> usize
    requires { IsVector p terms.now }
    ensures inside { result ≤ length terms.now }
    ensures above { EachMono (Above cut.now) (take result terms.now) }
    ensures rest { EachMono (λ m. Above cut.now m → ⊥) (drop result terms.now) }
{
    let mut n = 0;
    while n < terms.len() && is_above(cut, &terms[n].mono) {
        n += 1;
    }
    n
}

// The cut that leaves at most so many terms.
fn raised(top: &Top, keep: usize) -> Option<Mono>
    requires known { IsCut top.now.cut }
    requires terms { EachMono IsMono top.now.terms.items }
    ensures higher { (d : Option Monomial) × (result ≡ higher top.now.cut d) }
    ensures known { IsCut result }
    ensures degree { cut_degree result ≤ reach top.now }
{
    if keep < top.terms.len() {
        higher(top.cut, Some(top.terms[keep].mono))
    } else {
        top.cut
    }
}

// At most so many terms of the top, with the cut below them.
fn limited(p: Prime, top: Top, keep: usize) -> Top
    requires { IsTop p top }
    ensures top { IsTop p result }
    ensures value { KeepsTop p top result }
    ensures above { EachMono (Above result.cut) result.terms.items }
    ensures reach { reach result ≤ reach top }
{
    let cut = raised(&top, keep);
    let n = above(p, &cut, &top.terms);
    let mut terms = top.terms;
    terms.truncate(n);
    Top { terms, cut }
}

// The top of a sum.
fn sum_of(alloc: Global, p: Prime, a: &Top, b: &Top, keep: usize) -> Result<Top, AllocError>
    requires left { IsTop p a.now }
    requires right { IsTop p b.now }
    ensures top { IfOk result (λ t. IsTop p t) }
    ensures value { IfOk result (λ t. (f g : List Term) → Agrees p a.now.cut a.now.terms.items f → Agrees p b.now.cut b.now.terms.items g → Agrees p t.cut t.terms.items (add p f g)) }
    ensures reach { IfOk result (λ t. reach t ≤ max (reach a.now) (reach b.now)) }
{
    let terms = sum(alloc, p, &a.terms, &b.terms)?;
    let cut = higher(a.cut, b.cut);
    Ok(limited(p, Top { terms, cut }, keep))
}

// The top of the product with a term.
fn times_term(alloc: Global, p: Prime, a: &Top, t: Term) -> Result<Top, AllocError>
    requires residue { t.coeff < p }
    requires not_zero { 0 < t.coeff }
    requires mono { IsMono t.mono }
    requires plain { IsPlain t.mono }
    requires left { IsTop p a.now }
    requires room { reach a.now + total_degree t.mono.exponents ≤ MAX_DEGREE }
    ensures top { IfOk result (λ r. IsTop p r) }
    ensures value { IfOk result (λ r. (g : List Term) → Agrees p a.now.cut a.now.terms.items g → Agrees p r.cut r.terms.items (mul p g (t ∷ []))) }
    ensures reach { IfOk result (λ r. reach r ≤ reach a.now + total_degree t.mono.exponents) }
{
    let terms = term_multiple(alloc, p, &a.terms, t)?;
    let cut = cut_times(&a.cut, &t.mono);
    Ok(Top { terms, cut })
}

// The top of the product: the second factor is cut in halves, and the tops of the products are merged.
fn product(alloc: Global, p: Prime, a: &Top, b: &[Term], keep: usize) -> Result<Top, AllocError>
    requires left { IsTop p a.now }
    requires right { IsVector p b.now }
    requires plain { EachMono IsPlain b.now }
    requires room { reach a.now + degree_of b.now ≤ MAX_DEGREE }
    ensures top { IfOk result (λ t. IsTop p t) }
    ensures value { IfOk result (λ t. (g : List Term) → Agrees p a.now.cut a.now.terms.items g → Agrees p t.cut t.terms.items (mul p g b.now)) }
    ensures reach { IfOk result (λ t. reach t ≤ reach a.now + degree_of b.now) }
{
    if b.len() == 0 {
        return Ok(Top {
            terms: Vec::new(alloc),
            cut: None,
        });
    }
    if b.len() == 1 {
        return times_term(alloc, p, a, b[0]);
    }
    let middle = b.len() / 2;
    let low = product(alloc, p, a, &b[..middle], keep)?;
    let high = product(alloc, p, a, &b[middle..], keep)?;
    let top = sum_of(alloc, p, &low, &high, keep)?;
    Ok(top)
}

// The monomial with exponents k times as great.
fn mono_power(m: &Mono, k: u32) -> Mono
    requires known { IsMono m.now }
    requires room { total_degree m.now.exponents * k ≤ MAX_DEGREE }
    ensures value { result ≡ raised k m.now }
    ensures known { IsMono result }
{
    let base = m.with_component(0);
    let mut out = Mono::one();
    for _ in 0..k {
        out = Mono::product(&base, &out);
    }
    out.with_component(m.component())
}

// The terms with the p-th powers of their monomials.
fn frobenius(alloc: Global, p: Prime, f: &[Term]) -> Result<Vec<Term>, AllocError>
    requires terms { IsVector p f.now }
    requires room { degree_of f.now * p ≤ MAX_DEGREE }
    ensures value { IfOk result (λ v. v.items ≡ frobenius p f.now) }
    ensures known { IfOk result (λ v. IsVector p v.items) }
{
    let modulus = p.get();
    let mut out = Vec::new(alloc);
    for t in f {
        out.push(Term {
            coeff: t.coeff,
            mono: mono_power(&t.mono, modulus),
        })?;
    }
    Ok(out)
}

// The cut with the p-th power of its monomial.
fn cut_power(p: Prime, cut: &Option<Mono>) -> Option<Mono>
    requires known { IsCut cut.now }
    requires room { cut_degree cut.now * p ≤ MAX_DEGREE }
    ensures value { result ≡ cut_raised p cut.now }
    ensures known { IsCut result }
{
    match cut {
        None => None,
        Some(m) => Some(mono_power(m, p.get())),
    }
}

// The top with the p-th powers of all monomials.
fn top_power(alloc: Global, p: Prime, top: &Top) -> Result<Top, AllocError>
    requires top { IsTop p top.now }
    requires room { reach top.now * p ≤ MAX_DEGREE }
    ensures top { IfOk result (λ t. IsTop p t) }
    ensures value { IfOk result (λ t. (g : List Term) → Agrees p top.now.cut top.now.terms.items g → Agrees p t.cut t.terms.items (frobenius p g)) }
    ensures reach { IfOk result (λ t. reach t ≤ reach top.now * p) }
{
    let _modulus = p.get();
    let terms = frobenius(alloc, p, &top.terms)?;
    let cut = cut_power(p, &top.cut);
    Ok(Top { terms, cut })
}

// The top of the product with the n-th power of `a`, by n products with `a`.
fn with_factors(
    alloc: Global,
    p: Prime,
    start: Top,
    a: &[Term],
    n: u32,
    keep: usize,
) -> Result<Top, AllocError>
    requires start { IsTop p start }
    requires terms { IsVector p a.now }
    requires plain { EachMono IsPlain a.now }
    requires room { reach start + degree_of a.now * n ≤ MAX_DEGREE }
    ensures top { IfOk result (λ t. IsTop p t) }
    ensures value { IfOk result (λ t. (k : ℕ) → Agrees p start.cut start.terms.items (power p a.now k) → Agrees p t.cut t.terms.items (power p a.now (k + n))) }
    ensures above { IfOk result (λ t. EachMono (Above t.cut) t.terms.items) }
    ensures reach { IfOk result (λ t. reach t ≤ reach start + degree_of a.now * n) }
{
    let mut top = start;
    for _ in 0..n {
        top = product(alloc, p, &top, a, keep)?;
    }
    Ok(limited(p, top, keep))
}

// The polynomial 1.
fn one_top(alloc: Global, p: Prime) -> Result<Top, AllocError>
    ensures top { IfOk result (λ t. IsTop p t) }
    ensures value { IfOk result (λ t. (t.cut ≡ None) × (t.terms.items ≡ one)) }
    ensures reach { IfOk result (λ t. reach t ≡ 0) }
{
    let terms = one(alloc, p)?;
    Ok(Top { terms, cut: None })
}

// The greatest characteristic p whose p-th powers are taken at once: no exponent that the program meets reaches the next one.
const SMALL: u32 = 47;

// The top of a power. Modulo a small p the part of the exponent that p divides is a p-th power, and so raises exponents only.
pub(crate) fn power_top(
    alloc: Global,
    p: Prime,
    a: &[Term],
    n: u32,
    keep: usize,
) -> Result<Top, AllocError>
    requires terms { IsVector p a.now }
    requires plain { EachMono IsPlain a.now }
    requires room { degree_of a.now * n ≤ MAX_DEGREE }
    ensures top { IfOk result (λ t. IsTop p t) }
    ensures value { IfOk result (λ t. Agrees p t.cut t.terms.items (power p a.now n)) }
    ensures above { IfOk result (λ t. EachMono (Above t.cut) t.terms.items) }
    ensures reach { IfOk result (λ t. reach t ≤ degree_of a.now * n) }
{
    let modulus = p.get();
    if n < modulus || SMALL < modulus {
        let start = one_top(alloc, p)?;
        let top = with_factors(alloc, p, start, a, n, keep)?;
        return Ok(top);
    }
    let root = power_top(alloc, p, a, n / modulus, keep)?;
    let start = top_power(alloc, p, &root)?;
    let top = with_factors(alloc, p, start, a, n % modulus, keep)?;
    Ok(top)
}

// The number of terms that the first top keeps beyond the limit, and by how much each next one keeps more.
const SPARE: usize = 500;

const GROWTH: usize = 4;

// What tops tell of a power and a limit of terms.
#[derive(Drop)]
enum Told {
    // the terms of the power, no more than the limit
    Whole(Vec<Term>),
    // the power has more terms than the limit
    More,
    // the tops do not tell
    Open,
}

// What tops of more and more terms tell of the power.
fn by_tops(alloc: Global, p: Prime, a: &[Term], n: u32, limit: usize) -> Result<Told, AllocError>
    requires terms { IsVector p a.now }
    requires plain { EachMono IsPlain a.now }
    requires room { degree_of a.now * n ≤ MAX_DEGREE }
    ensures { IfOk result (λ told. IsRightAbout p (power p a.now n) limit told) }
{
    let _modulus = p.get();
    let mut keep = limit.saturating_add(SPARE);
    for _ in 0..8 {
        let top = power_top(alloc, p, a, n, keep)?;
        if limit < top.terms.len() {
            return Ok(Told::More);
        }
        if top.cut.is_none() {
            return Ok(Told::Whole(top.terms));
        }
        keep = keep.saturating_mul(GROWTH);
    }
    Ok(Told::Open)
}

// The power, or `None` where it has more terms than the limit.
pub(crate) fn power_within(
    alloc: Global,
    p: Prime,
    a: &[Term],
    n: u32,
    limit: usize,
) -> Result<Option<Vec<Term>>, AllocError>
    requires terms { IsVector p a.now }
    requires plain { EachMono IsPlain a.now }
    requires room { degree_of a.now * n ≤ MAX_DEGREE }
    ensures few { IfOk result (λ r. IfSome r (λ v. (v.items ≡ power p a.now n) × IsVector p v.items × (length v.items ≤ limit))) }
    ensures many { IfOk result (λ r. IsNone r → limit < length (power p a.now n)) }
{
    match by_tops(alloc, p, a, n, limit)? {
        Told::Whole(terms) => Ok(Some(terms)),
        Told::More => Ok(None),
        Told::Open => {
            let whole = whole_power(alloc, p, a, n)?;
            if limit < whole.len() {
                Ok(None)
            } else {
                Ok(Some(whole))
            }
        }
    }
}
