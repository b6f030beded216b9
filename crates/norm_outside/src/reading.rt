// All that a source gives.
ghost use Rattle.std.specs.Prelude.{◌≡◌, ℕ, ◌+◌, ◌<◌, ◌≤◌, length, IfOk, IsErrOf};
ghost use Rattle.norm_outside.specs.Causes.{Rose};
ghost use Rattle.norm_outside.specs.Bytes.{ReadToEnd, TookMore, TookAtMost};

use super::source::Source;
use lists::List;
use std::alloc::Global;

// The room that is offered to the source at each call.
const ROOM: usize = 4096;

/// Why not all bytes were read.
#[derive(Clone, Copy, PartialEq, Eq, Debug, Drop)]
pub enum ReadAll {
    /// A read failed: the source's count of faults rose in this call.
    Fault,
    /// More than the limit was taken.
    TooLong,
    /// No memory was to be had.
    Memory,
}

/// All bytes to the end of the input, which are at most `limit`. Each call of the source is offered
/// room for 4,096 bytes, and each turn but the last takes at least one.
pub fn read_all<S: Source>(alloc: Global, source: &mut S, limit: usize) -> Result<List<u8>, ReadAll>
    ensures bytes { IfOk result (λ bytes. ReadToEnd (S.left source.old) (S.left source.new) bytes × (length bytes ≤ limit)) }

    // Too long exactly where more than the limit was taken.
    ensures too_long { IsErrOf result ReadAll.TooLong → TookMore (S.left source.old) (S.left source.new) limit }
    ensures within { (IsErrOf result ReadAll.TooLong → ⊥) → TookAtMost (S.left source.old) (S.left source.new) limit }

    ensures fault { IsErrOf result ReadAll.Fault → Rose (S.faults source.old) (S.faults source.new) }
    ensures later { S.faults source.old ≤ S.faults source.new }
{
    let mut bytes = Vec::new(alloc);
    let mut buffer = [0u8; ROOM];
    for _ in 0..u64::MAX {
        let count = match source.read(&mut buffer) {
            Ok(count) => count,
            Err(_) => return Err(ReadAll::Fault),
        };
        if count == 0 {
            return Ok(List::of_vec(bytes));
        }
        if limit - bytes.len() < count {
            return Err(ReadAll::TooLong);
        }
        if bytes.extend_from_slice(&buffer[..count]).is_err() {
            return Err(ReadAll::Memory);
        }
    }
    Err(ReadAll::TooLong)
}
