// Whether division by rows pays in a degree.
use crate::Gens;
use lists::NoMemory;
use module_division::Columns;
use polys::Poly;
use std::alloc::Global;

// Vectors with fewer terms on average are divided by merges.
const LONG: usize = 24;

// So are those in fewer variables, where what no lead divides is little in a degree, so that vectors stay short.
const FEW_VARIABLES: u32 = 3;

// The columns of the degree, which has so many pairs, where division by rows pays, and none otherwise. It pays where there are no more columns than half
// the terms that merges move: about the square of the terms of a vector for each pair.
pub(crate) fn columns_for(
    alloc: Global,
    gens: &Gens,
    basis: &[Poly],
    pairs: usize,
    e: u32,
) -> Result<Columns, NoMemory> {
    let length = average_length(basis);
    if pairs == 0 || length < LONG || gens.variables < FEW_VARIABLES {
        return Ok(Columns::none(alloc));
    }
    let moved = pairs.saturating_mul(length).saturating_mul(length);
    let shift = if is_plain(gens.vectors.as_slice()) {
        None
    } else {
        Some(gens.shift)
    };
    Columns::of_degree(alloc, gens.variables, shift, e, moved / 2)
}

// The number of terms of a vector on average.
fn average_length(basis: &[Poly]) -> usize {
    let mut terms = 0usize;
    for b in basis {
        terms = terms.saturating_add(b.terms().len());
    }
    terms / basis.len().max(1)
}

// Whether all vectors have one component.
fn is_plain(vectors: &[Poly]) -> bool {
    for v in vectors {
        if !v.is_plain() {
            return false;
        }
    }
    true
}
