// Monomials that are to be tried, in rising order.
ghost use Rattle.std.specs.Prelude.{◌≡◌, ◌+◌, ◌<◌, ◌≤◌, [], length, OnOk};
ghost use Rattle.monomials.specs.declared.mono.TheConstants.{MAX_VARIABLES, MAX_DEGREE};
ghost use Rattle.monomials.specs.Mono.{total_degree};
ghost use Rattle.standard_monomials.specs.Finding.{GainsMultiples};
ghost use Rattle.standard_monomials.specs.Standard.{IsRising};

use monomials::Mono;
use standard_monomials::insert;
use std::alloc::AllocError;

// Puts the multiples of `m` by the variables into the rising list.
pub(crate) fn insert_multiples(
    variables: u32,
    m: Mono,
    queue: &mut Vec<Mono>,
) -> Result<(), AllocError>
    requires variables { variables ≤ MAX_VARIABLES }
    requires room { total_degree m.exponents < MAX_DEGREE }
    requires seven { length m.exponents ≡ 7 }
    requires rising { IsRising queue.old.items }
    ensures gains { OnOk result (GainsMultiples [] variables m queue.old.items queue.new.items) }
    ensures few { OnOk result (length queue.new.items ≤ length queue.old.items + variables) }
{
    for v in 0..variables {
        insert(queue, Mono::product(&m, &Mono::var(v)))?;
    }
    Ok(())
}
