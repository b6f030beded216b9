// From the source to what is to be told.
ghost use Rattle.std.specs.Prelude.{◌≡◌, ◌⊎◌, ℕ, List, ◌≤◌, length, Some, IfOk, IfErr};
ghost use Rattle.module_basis.specs.declared.cap.TheConstants.{MAX_CAP};
ghost use Rattle.norm_outside.specs.Causes.{Rose};
ghost use Rattle.norm_core.specs.Refusals.{line_of, status_of};
ghost use Rattle.norm_core.specs.Telling.{Tells, Told, HasAnswer, HasStatus, byte_limit};

use crate::refusals::Refusal;
use crate::solving::solve;
use lists::List;
use norm_outside::{ReadAll, Source, read_all};
use singular_text::read_problem;
use std::alloc::Global;

// The most bytes that are read.
const BYTE_LIMIT: usize = 1048576;

// The answer to an input that is not too long.
fn answer_to(alloc: Global, cap: u32, limit: u32, input: &[u8]) -> Result<List<u8>, Refusal>
    requires short { length input.now ≤ byte_limit }
    requires cap { (1 ≤ cap) × (cap ≤ MAX_CAP) }
    requires limit { (1 ≤ limit) × (limit ≤ 64) }
    ensures answered { IfOk result (λ text. Tells cap limit input.now 0 text) }
    ensures refused { IfErr result (λ refusal. (status_of refusal ≡ 30) ⊎ Tells cap limit input.now (status_of refusal) (line_of refusal)) }
    ensures exact { (status : ℕ) (text : List ℕ) → Tells cap limit input.now status text → HasStatus result status }
    ensures complete { HasAnswer cap limit input.now → HasStatus result 0 }
{
    let problem = read_problem(alloc, input)?;
    solve(alloc, &problem, cap, limit)
}

/// The answer to the problem that a source gives, under the degree cap and the limit of delta, or why there is none.
pub fn answer<S: Source>(
    alloc: Global,
    cap: u32,
    limit: u32,
    source: &mut S,
) -> Result<List<u8>, Refusal>
    requires cap { (1 ≤ cap) × (cap ≤ MAX_CAP) }
    requires limit { (1 ≤ limit) × (limit ≤ 64) }
    ensures answered { IfOk result (λ text. Told cap limit (S.left source.old) (S.left source.new) 0 text) }
    ensures refused { IfErr result (λ refusal. (status_of refusal ≡ 30) ⊎ ((status_of refusal ≡ 20) × Rose (S.faults source.old) (S.faults source.new)) ⊎ Told cap limit (S.left source.old) (S.left source.new) (status_of refusal) (line_of refusal)) }
    ensures exact { (input text : List ℕ) (status : ℕ) → S.left source.old ≡ Some input → Tells cap limit input status text → HasStatus result status }
    ensures complete { (input : List ℕ) → S.left source.old ≡ Some input → HasAnswer cap limit input → HasStatus result 0 }
{
    match read_all(alloc, source, BYTE_LIMIT) {
        Ok(input) => answer_to(alloc, cap, limit, input.as_slice()),
        Err(ReadAll::Fault) => Err(Refusal::ReadFault),
        Err(ReadAll::TooLong) => Err(Refusal::LimitBytes),
        Err(ReadAll::Memory) => Err(Refusal::Memory),
    }
}
