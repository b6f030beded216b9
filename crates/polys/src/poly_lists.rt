// Lists of polynomials.
ghost use Rattle.std.specs.Prelude.{◌≡◌, ◌↔◌, IsTrue, IfOk};

use crate::Poly;
use lists::{List, NoMemory};
use std::alloc::Global;

/// The same polynomials again, in their order.
pub fn copied(alloc: Global, list: &[Poly]) -> Result<List<Poly>, NoMemory>
    ensures { IfOk result (λ copies. copies ≡ list.now) }
{
    let mut copies = List::new(alloc);
    for f in list {
        copies.push(f.clone_poly()?)?;
    }
    Ok(copies)
}

/// Whether the lists have the same polynomials in the same order.
pub fn are_same(a: &[Poly], b: &[Poly]) -> bool
    ensures { IsTrue result ↔ (a.now ≡ b.now) }
{
    if a.len() != b.len() {
        return false;
    }
    for i in 0..a.len() {
        if !a[i].same(&b[i]) {
            return false;
        }
    }
    true
}
