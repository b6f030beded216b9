// All of some bytes, into a sink.
ghost use Rattle.std.specs.Prelude.{◌≡◌, ℕ, ◌+◌, ◌-◌, ◌<◌, ◌≤◌, length, take, OnOk, IfErr};
ghost use Rattle.std.specs.Io.KnownBytes.{Appends};
ghost use Rattle.norm_outside.specs.Causes.{Rose};

use super::sink::Sink;

/// A write failed after the first `written` bytes: the sink's count of faults rose in this call.
#[derive(Clone, Copy, PartialEq, Eq, Debug, Drop)]
pub struct WriteStop {
    pub written: usize,
}

/// Appends all the bytes, in as many calls of the sink as it wants. It takes no memory.
pub fn write_all_of<K: Sink>(sink: &mut K, bytes: &[u8]) -> Result<(), WriteStop>
    ensures all { OnOk result (Appends (K.held sink.old) (K.held sink.new) bytes.now) }
    ensures part { IfErr result (λ stop. Appends (K.held sink.old) (K.held sink.new) (take stop.written bytes.now)) }
    ensures short { IfErr result (λ stop. stop.written < length bytes.now) }
    ensures fault { IfErr result (λ _. Rose (K.faults sink.old) (K.faults sink.new)) }
    ensures later { K.faults sink.old ≤ K.faults sink.new }
{
    let mut written = 0;
    while written < bytes.len() {
        match sink.write(&bytes[written..]) {
            Ok(count) => written += count,
            Err(_) => return Err(WriteStop { written }),
        }
    }
    Ok(())
}
