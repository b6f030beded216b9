// The top call.
ghost use Rattle.std.specs.Prelude.{◌≡◌, ◌≢◌, ℕ, List, ◌<◌, ◌⊎◌, map, string_bytes, length, take};
ghost use Rattle.std.specs.Io.KnownBytes.{Keeps, Appends};
ghost use Rattle.norm_outside.specs.Causes.{Rose};
ghost use Rattle.command_line.specs.Asks.{AreWithin};
ghost use Rattle.norm_core.specs.Asking.{AsksAlone};
ghost use Rattle.norm_core.specs.Refusals.{line_of, status_of};
ghost use Rattle.norm_core.specs.Telling.{AsksNothing, IsTold, IsCutShort, IsStopped, IsExact, IsComplete, OnlyUnder};

use crate::answering::answer;
use crate::refusals::Refusal;
use command_line::{Ask, Limits, WordFault, is_threaded, read_words};
use norm_outside::{Sink, Source, write_all_of};
use std::alloc::Global;

/// Serves the words after the program's name with one seat and no thread, over a source and a sink, and gives the status.
///
/// The words are `alone`, and after it, in any order and each at most once, `--degree` with a cap on degrees from 1 to 1,000
/// and `--delta` with a limit of delta from 1 to 64. An option's value has 1 to 4 digits and is the next word, or stands
/// behind `=` in the same one; without the options the cap is 200 and the limit 64. It reads a problem, chooses the
/// denominator, and writes the closure at the named points, which are all points where none are named: 0 with the answer's
/// text.
///
/// Each refusal writes its line, in this order: 2 `refused: usage`; 4 `refused: limit bytes` (more than 1,048,576
/// bytes); 3 `refused: syntax`; 4 `refused: characteristic`, and `refused: limit` with `variables`, `generators`,
/// `points`, `nesting`, `digits` or `size`; 6 `refused: deep ideal`; 5 `refused: unit ideal`; for a denominator that is
/// handed in 6 `refused: deep denominator`, 8 `refused: zero divisor`, 9 `refused: infinite` or `refused: wide`; else
/// 7 `refused: no denominator`; and 10 `refused: delta` with the first named point whose delta is above the limit. Without
/// a line come 20 (a read failed), 21 (a write failed, after a part of the text) and 30 (want of memory).
///
/// It returns always. Böhm, Decker, Laplagne, Pfister, Steenpass and Steidel, Parallel Algorithms for Normalization; Greuel and
/// Pfister, section on normalization.
pub fn run_alone<S: Source, K: Sink>(
    alloc: Global,
    words: &[String],
    source: &mut S,
    sink: &mut K,
) -> u8
    // A status other than 20, 21 and 30 is the one that the words and the input have, told whole.
    ensures told { IsStopped result ⊎ IsTold (AsksAlone (map string_bytes words.now)) (S.left source.old) (S.left source.new) (K.held sink.old) (K.held sink.new) result }

    // And the other way round: what the words and the input have is the status, unless it is 20, 21 or 30.
    ensures usage { AsksNothing (AsksAlone (map string_bytes words.now)) → (result ≡ 2) ⊎ (result ≡ 21) }
    ensures exact { (cap limit : ℕ) → AsksAlone (map string_bytes words.now) cap limit → IsExact cap limit (S.left source.old) result }

    // An input that has an answer is answered.
    ensures complete { (cap limit : ℕ) → AsksAlone (map string_bytes words.now) cap limit → IsComplete cap limit (S.left source.old) result }

    ensures read_fault { result ≡ 20 → Rose (S.faults source.old) (S.faults source.new) × Keeps (K.held sink.old) (K.held sink.new) }
    ensures write_fault { result ≡ 21 → Rose (K.faults sink.old) (K.faults sink.new) }
    ensures cut_short { result ≡ 21 → IsCutShort (AsksAlone (map string_bytes words.now)) (S.left source.old) (S.left source.new) (K.held sink.old) (K.held sink.new) }
    ensures memory { result ≡ 30 → Keeps (K.held sink.old) (K.held sink.new) }
{
    if is_threaded(words) {
        return tell(sink, b"refused: usage\n", 2);
    }
    match read_words(alloc, words) {
        Ok(Ask::Alone(limits)) => serve(alloc, limits, source, sink),
        Ok(Ask::Normal(..)) => unreachable!(),
        Err(WordFault::Usage) => tell(sink, b"refused: usage\n", 2),
        Err(WordFault::Memory) => 30,
    }
}

// Serves the answer under these limits.
fn serve<S: Source, K: Sink>(alloc: Global, limits: Limits, source: &mut S, sink: &mut K) -> u8
    requires { AreWithin limits }
    ensures told { IsStopped result ⊎ IsTold (OnlyUnder limits.cap limits.limit) (S.left source.old) (S.left source.new) (K.held sink.old) (K.held sink.new) result }
    ensures exact { IsExact limits.cap limits.limit (S.left source.old) result }
    ensures complete { IsComplete limits.cap limits.limit (S.left source.old) result }
    ensures read_fault { result ≡ 20 → Rose (S.faults source.old) (S.faults source.new) × Keeps (K.held sink.old) (K.held sink.new) }
    ensures write_fault { result ≡ 21 → Rose (K.faults sink.old) (K.faults sink.new) }
    ensures cut_short { result ≡ 21 → IsCutShort (OnlyUnder limits.cap limits.limit) (S.left source.old) (S.left source.new) (K.held sink.old) (K.held sink.new) }
    ensures memory { result ≡ 30 → Keeps (K.held sink.old) (K.held sink.new) }
{
    match answer(alloc, limits.cap, limits.limit, source) {
        Ok(text) => tell(sink, text.as_slice(), 0),
        Err(refusal) => refuse(sink, &refusal),
    }
}

// Writes the text whole and gives the status, or 21 where a write failed.
fn tell<K: Sink>(sink: &mut K, text: &[u8], status: u8) -> u8
    requires { (status ≢ 20) × (status ≢ 21) × (status ≢ 30) }
    ensures whole { result ≢ 21 → (result ≡ status) × Appends (K.held sink.old) (K.held sink.new) text.now }
    ensures part { result ≡ 21 → (n : ℕ) × (n < length text.now) × Appends (K.held sink.old) (K.held sink.new) (take n text.now) }
    ensures fault { result ≡ 21 → Rose (K.faults sink.old) (K.faults sink.new) }
{
    match write_all_of(sink, text) {
        Ok(()) => status,
        Err(_) => 21,
    }
}

// Writes the line of the refusal, if it has one, and gives its status, or 21 where a write failed.
fn refuse<K: Sink>(sink: &mut K, refusal: &Refusal) -> u8
    ensures silent { (status_of refusal.now ≡ 20) ⊎ (status_of refusal.now ≡ 30) → (result ≡ status_of refusal.now) × Keeps (K.held sink.old) (K.held sink.new) }
    ensures whole { (status_of refusal.now ≢ 20) × (status_of refusal.now ≢ 30) → result ≢ 21 → (result ≡ status_of refusal.now) × Appends (K.held sink.old) (K.held sink.new) (line_of refusal.now) }
    ensures part { result ≡ 21 → (status_of refusal.now ≢ 20) × (status_of refusal.now ≢ 30) × ((n : ℕ) × (n < length (line_of refusal.now)) × Appends (K.held sink.old) (K.held sink.new) (take n (line_of refusal.now))) }
    ensures fault { result ≡ 21 → Rose (K.faults sink.old) (K.faults sink.new) }
{
    let status = refusal.status();
    if status == 20 || status == 30 {
        return status;
    }
    tell(sink, refusal.line(), status)
}
