// Answers read back from their texts.
ghost use Rattle.std.specs.Prelude.{◌≡◌, ◌<◌, ◌≤◌, ◌↔◌, ◌++◌, List, ℕ, [], ◌∷◌, Option, map, codes, decimal, length, All, IfOk, IfSome, IsTrue, Err, is_some, false};
ghost use Rattle.std.specs.List.{flat_map};
ghost use Rattle.std.specs.Str.{bytes_eq};
ghost use Rattle.prime_field.specs.Primes.{IsCharacteristic};
ghost use Rattle.polys.specs.declared.term.Term.{Term};
ghost use Rattle.polys.specs.Poly.{terms_of};
ghost use Rattle.problem.specs.Letters.{AreLetters};
ghost use Rattle.poly_text.specs.PolyText.{join, poly_text, list_text};
ghost use Rattle.norm_text.specs.declared.limits.TheConstants.{MAX_POINTS, MAX_POWER};
ghost use Rattle.polys.specs.declared.curve.TheConstants.{LARGEST_DIMENSION};
ghost use Rattle.norm_text.specs.declared.reading.AnswerFault.TheVariants.{NotAnswer, Memory};
ghost use Rattle.norm_text.specs.Answer.{PointData, AnswerData, named_line, point_line, numerator_line, head_text, answer_text};
ghost use Rattle.norm_text.specs.Cutting.{begins};
ghost use Rattle.norm_text.specs.Ranges.{IsPrintable, IsSizedPoint, AreSized, IsInRange};
ghost use Rattle.norm_text.specs.Reading.{IsReadUnlessFull, IsReadable, IsOverItsPrime};
ghost use Rattle.norm_text.specs.ReadingSteps.{point_body, AreKnown, IsPointInRange, IsHeadOf, IsReadableAnswer};
ghost use Rattle.norm_text.specs.Shown.{point_of, data_of};

use crate::cutting::{after, begins, cut, field, number, without};
use crate::limits::{MAX_DELTA, MAX_POINTS, MAX_POWER};
use crate::printing::print_answer;
use crate::{Answer, PointLine};
use curve_model::Point;
use lists::{List, NoMemory};
use poly_text::{PolyFault, read_poly};
use polys::{LARGEST_DIMENSION, Poly};
use prime_field::Prime;
use problem::Letters;
use std::alloc::Global;
use thiserror::Error;

/// Why no answer was read.
#[derive(Clone, Copy, Debug, Drop, PartialEq, Eq, Error)]
pub enum AnswerFault {
    /// The bytes are the text of no answer in range.
    #[error("no answer")]
    NotAnswer,
    /// Out of memory.
    #[error("no memory")]
    Memory,
}

impl From<NoMemory> for AnswerFault {
    ghost use Rattle.std.specs.Prelude.{◌≡◌};
    ghost use Rattle.norm_text.specs.declared.reading.AnswerFault.TheVariants.{Memory};

    ghost from_gives = { λ _ fault. fault ≡ Memory };

    fn from(_: NoMemory) -> AnswerFault {
        AnswerFault::Memory
    }
}

// What the lines before the points say, and the bytes behind these lines.
#[derive(Drop)]
struct Head<'a> {
    characteristic: &'a [u8],
    variables: &'a [u8],
    denominator: &'a [u8],
    dimension: u32,
    named: Option<u32>,
    rest: &'a [u8],
}

// The number of named points, and the bytes behind its line. Version 1 has none.
fn named_count(is_second: bool, bytes: &[u8]) -> (Option<u32>, &[u8])
    ensures { (named : Option ℕ) (rest : List ℕ) → IfSome named (λ n. n ≤ MAX_POINTS) → is_second ≡ is_some named → bytes.now ≡ named_line named ++ rest → (result.0 ≡ named) × (result.1.now ≡ rest) }
{
    if !is_second {
        return (None, bytes);
    }
    let (count, rest) = field(b"named ", bytes);
    (Some(number(count)), rest)
}

// Whether the first line is that of version 2.
fn is_second(version: &[u8]) -> bool
    ensures { result ≡ bytes_eq version.now (codes "locnormal 2") }
{
    version == b"locnormal 2".as_slice()
}

// The lines before the points.
fn head_of(bytes: &[u8]) -> Head<'_>
    ensures { (a : AnswerData) (rest : List ℕ) → IsInRange a → bytes.now ≡ head_text a ++ rest → IsHeadOf result a rest }
{
    let (version, rest) = cut(bytes, b'\n');
    let (characteristic, rest) = field(b"characteristic ", rest);
    let (variables, rest) = field(b"variables ", rest);
    let (denominator, rest) = field(b"denominator ", rest);
    let (dimension, rest) = field(b"dimension ", rest);
    let (named, rest) = named_count(is_second(version), rest);
    Head {
        characteristic,
        variables,
        denominator,
        dimension: number(dimension),
        named,
        rest,
    }
}

// The characteristic.
fn read_prime(digits: &[u8]) -> Result<Prime, AnswerFault>
    ensures known { IfOk result IsCharacteristic }
    ensures exact { (p : ℕ) → IsCharacteristic p → digits.now ≡ decimal p → IsReadUnlessFull result (λ prime. prime ≡ p) }
{
    Prime::new(number(digits)).ok_or(AnswerFault::NotAnswer)
}

// The letters between commas.
fn read_letters(alloc: Global, bytes: &[u8]) -> Result<Letters, AnswerFault>
    ensures known { IfOk result AreLetters }
    ensures exact { (letters : List ℕ) → AreLetters letters → bytes.now ≡ join (codes ",") (map (λ x. x ∷ []) letters) → IsReadUnlessFull result (λ l. l ≡ letters) }
{
    let letters = without(alloc, b',', bytes)?;
    Letters::new(letters.as_slice()).ok_or(AnswerFault::NotAnswer)
}

// A polynomial.
fn read_polynomial(
    alloc: Global,
    prime: Prime,
    letters: &Letters,
    bytes: &[u8],
) -> Result<Poly, AnswerFault>
    ensures known { IfOk result (IsReadable prime letters.now) }
    ensures exact { (f : List Term) → IsPrintable prime letters.now f → bytes.now ≡ poly_text prime letters.now f → IsReadUnlessFull result (λ g. g.terms ≡ f) }
{
    match read_poly(alloc, prime, letters, bytes) {
        Ok(poly) => Ok(poly),
        Err(PolyFault::NotPoly) => Err(AnswerFault::NotAnswer),
        Err(PolyFault::Memory) => Err(AnswerFault::Memory),
    }
}

// The polynomials of a list.
fn read_list(
    alloc: Global,
    prime: Prime,
    letters: &Letters,
    bytes: &[u8],
) -> Result<List<Poly>, AnswerFault>
    ensures known { IfOk result (λ polys. All (IsReadable prime letters.now) polys) }
    ensures exact { AreKnown prime letters.now → (fs : List (List Term)) → All (IsPrintable prime letters.now) fs → bytes.now ≡ list_text prime letters.now fs → IsReadUnlessFull result (λ polys. terms_of polys ≡ fs) }
{
    let mut polys = List::new(alloc);
    let mut rest = bytes;
    while !rest.is_empty() {
        let (text, behind) = cut(rest, b',');
        polys.push(read_polynomial(alloc, prime, letters, text)?)?;
        rest = after(b" ", behind);
    }
    Ok(polys)
}

// What stands in the line of a point.
fn read_point(
    alloc: Global,
    prime: Prime,
    letters: &Letters,
    bytes: &[u8],
) -> Result<PointLine, AnswerFault>
    ensures known { IfOk result (λ line. All (IsReadable prime letters.now) line.point.basis) }
    ensures exact { AreKnown prime letters.now → (P : PointData) → IsPointInRange prime letters.now P → bytes.now ≡ point_body prime letters.now P → IsReadUnlessFull result (λ line. point_of line ≡ P) }
{
    let (list, rest) = cut(bytes, b';');
    let (degree, delta) = cut(rest, b';');
    let basis = read_list(alloc, prime, letters, list)?;
    Ok(PointLine {
        point: Point {
            basis,
            degree: number(after(b" degree ", degree)),
        },
        delta: number(after(b" delta ", delta)),
    })
}

// Whether the bytes begin with the line of one more point, with so many before it.
fn has_point(count: usize, bytes: &[u8]) -> bool
    ensures { IsTrue result ↔ ((count < MAX_POINTS) × IsTrue (begins (codes "point ") bytes.now)) }
{
    count < MAX_POINTS as usize && begins(b"point ", bytes)
}

// The lines of the points, 256 at the most, and the bytes behind them.
fn read_points<'a>(
    alloc: Global,
    prime: Prime,
    letters: &Letters,
    bytes: &'a [u8],
) -> Result<(List<PointLine>, &'a [u8]), AnswerFault>
    ensures known { IfOk result (λ r. All (λ line. All (IsReadable prime letters.now) line.point.basis) r.0) }
    ensures exact { AreKnown prime letters.now → (Ps : List PointData) (rest : List ℕ) → All (IsPointInRange prime letters.now) Ps → length Ps ≤ MAX_POINTS → begins (codes "point ") rest ≡ false → bytes.now ≡ flat_map (point_line prime letters.now) Ps ++ rest → IsReadUnlessFull result (λ r. (map point_of r.0 ≡ Ps) × (r.1.now ≡ rest)) }
{
    let mut points = List::new(alloc);
    let mut rest = bytes;
    while has_point(points.len(), rest) {
        let (line, behind) = field(b"point ", rest);
        points.push(read_point(alloc, prime, letters, line)?)?;
        rest = behind;
    }
    Ok((points, rest))
}

// The lines of the numerators.
fn read_numerators(
    alloc: Global,
    prime: Prime,
    letters: &Letters,
    bytes: &[u8],
) -> Result<List<Poly>, AnswerFault>
    ensures known { IfOk result (λ polys. All (IsReadable prime letters.now) polys) }
    ensures exact { AreKnown prime letters.now → (fs : List (List Term)) (rest : List ℕ) → All (IsPrintable prime letters.now) fs → begins (codes "numerator ") rest ≡ false → bytes.now ≡ flat_map (numerator_line prime letters.now) fs ++ rest → IsReadUnlessFull result (λ polys. terms_of polys ≡ fs) }
{
    let mut polys = List::new(alloc);
    let mut rest = bytes;
    while begins(b"numerator ", rest) {
        let (text, behind) = field(b"numerator ", rest);
        polys.push(read_polynomial(alloc, prime, letters, text)?)?;
        rest = behind;
    }
    Ok(polys)
}

// The data of the lines. What they are not the text of is read too, as some data.
fn read_lines(alloc: Global, bytes: &[u8]) -> Result<Answer, AnswerFault>
    ensures known { IfOk result IsReadableAnswer }
    ensures exact { (a : AnswerData) → IsInRange a → bytes.now ≡ answer_text a → IsReadUnlessFull result (λ answer. data_of answer ≡ a) }
{
    let head = head_of(bytes);
    let prime = read_prime(head.characteristic)?;
    let letters = read_letters(alloc, head.variables)?;
    let denominator = read_polynomial(alloc, prime, &letters, head.denominator)?;
    let (points, rest) = read_points(alloc, prime, &letters, head.rest)?;
    let (power, rest) = field(b"power ", rest);
    let numerators = read_numerators(alloc, prime, &letters, rest)?;
    Ok(Answer {
        prime,
        letters,
        denominator,
        dimension: head.dimension,
        named: head.named,
        points,
        power: number(power),
        numerators,
    })
}

// Whether a number is from 1 to the most.
fn is_from_one(n: u32, most: u32) -> bool
    ensures { IsTrue result ↔ ((1 ≤ n) × (n ≤ most)) }
{
    1 <= n && n <= most
}

fn is_sized_point(line: &PointLine) -> bool
    ensures { IsTrue result ↔ IsSizedPoint (point_of line.now) }
{
    line.point.basis.len() > 0
        && is_from_one(line.point.degree, LARGEST_DIMENSION)
        && is_from_one(line.delta, MAX_DELTA)
}

fn are_sized_points(points: &[PointLine]) -> bool
    ensures { IsTrue result ↔ All (λ line. IsSizedPoint (point_of line)) points.now }
{
    for line in points {
        if !is_sized_point(line) {
            return false;
        }
    }
    true
}

fn is_sized_count(named: Option<u32>) -> bool
    ensures { IsTrue result ↔ IfSome named (λ n. n ≤ MAX_POINTS) }
{
    named.is_none_or(|n| n <= MAX_POINTS)
}

// Whether the numbers of an answer are in their ranges.
fn are_sized_numbers(answer: &Answer) -> bool
    ensures { IsTrue result ↔ ((answer.now.dimension ≤ LARGEST_DIMENSION) × IfSome answer.now.named (λ n. n ≤ MAX_POINTS) × (answer.now.power ≤ MAX_POWER)) }
{
    answer.dimension <= LARGEST_DIMENSION
        && is_sized_count(answer.named)
        && answer.power <= MAX_POWER
}

// Whether there are not too many points, all of them with numbers in range, and some numerator.
fn are_sized_lists(answer: &Answer) -> bool
    ensures { IsTrue result ↔ ((length answer.now.points ≤ MAX_POINTS) × All (λ line. IsSizedPoint (point_of line)) answer.now.points × (1 ≤ length answer.now.numerators)) }
{
    answer.points.len() <= MAX_POINTS as usize
        && are_sized_points(answer.points.as_slice())
        && answer.numerators.len() > 0
}

fn are_sized(answer: &Answer) -> bool
    ensures { IsTrue result ↔ AreSized (data_of answer.now) }
{
    are_sized_numbers(answer) && are_sized_lists(answer)
}

// Whether the bytes are the text of the answer.
fn is_text(alloc: Global, answer: &Answer, bytes: &[u8]) -> Result<bool, NoMemory>
    requires { IsOverItsPrime answer.now }
    ensures { IfOk result (λ b. IsTrue b ↔ (bytes.now ≡ answer_text (data_of answer.now))) }
{
    let text = print_answer(alloc, answer)?;
    Ok(text.as_slice() == bytes)
}

/// The answer whose text the bytes are, as `print_answer` writes it, in either version. Its numbers are in their ranges,
/// which `IsInRange` tells, and its polynomials are over its prime; that it is the answer to a problem is not asked.
/// `NotAnswer` comes exactly where the bytes are the text of no such data: each other way to write a number, a
/// polynomial or a line is refused. It takes about as many steps as there are bytes.
///
/// # Errors
/// `NotAnswer`, and want of memory.
pub fn read_answer(alloc: Global, bytes: &[u8]) -> Result<Answer, AnswerFault>
    ensures range { IfOk result (λ answer. IsInRange (data_of answer)) }
    ensures over { IfOk result IsOverItsPrime }
    ensures text { IfOk result (λ answer. bytes.now ≡ answer_text (data_of answer)) }
    ensures exact { (a : AnswerData) → IsInRange a → bytes.now ≡ answer_text a → IsReadUnlessFull result (λ answer. data_of answer ≡ a) }
    ensures not_answer { result ≡ Err NotAnswer → (a : AnswerData) → IsInRange a → bytes.now ≡ answer_text a → ⊥ }
{
    let answer = read_lines(alloc, bytes)?;
    if !are_sized(&answer) {
        return Err(AnswerFault::NotAnswer);
    }
    if !is_text(alloc, &answer, bytes)? {
        return Err(AnswerFault::NotAnswer);
    }
    Ok(answer)
}
