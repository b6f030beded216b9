// Answers printed.
ghost use Rattle.std.specs.Prelude.{◌≡◌, ◌++◌, [], ◌∷◌, codes, decimal, map, All, OnOk, IfOk};
ghost use Rattle.std.specs.List.{flat_map};
ghost use Rattle.poly_text.specs.PolyText.{poly_text, list_text, join};
ghost use Rattle.norm_text.specs.Answer.{line, first_line, named_line, point_line, numerator_line, head_text, answer_text};
ghost use Rattle.norm_text.specs.Lines.{own_point_line, own_numerator_line};
ghost use Rattle.norm_text.specs.Joined.{separator_part, joined_rest};
ghost use Rattle.norm_text.specs.Shown.{point_of, data_of};

use crate::{Answer, PointLine};
use lists::{List, NoMemory};
use poly_text::{print_bytes, print_number, print_poly};
use polys::Poly;
use problem::Letters;
use std::alloc::Global;

// A line with a number.
fn number_line(word: &[u8], n: u32, out: &mut List<u8>) -> Result<(), NoMemory>
    ensures { OnOk result (out.new ≡ out.old ++ line word.now (decimal n)) }
{
    print_bytes(word, out)?;
    print_number(n, out)?;
    out.push(b'\n')
}

// A line with a polynomial.
fn poly_line(
    word: &[u8],
    letters: &Letters,
    poly: &Poly,
    out: &mut List<u8>,
) -> Result<(), NoMemory>
    ensures { OnOk result (out.new ≡ out.old ++ line word.now (poly_text poly.now.prime letters.now poly.now.terms)) }
{
    print_bytes(word, out)?;
    print_poly(letters, poly, out)?;
    out.push(b'\n')
}

// The separator before a text, unless it comes first.
fn print_separator(is_first: bool, between: &[u8], out: &mut List<u8>) -> Result<(), NoMemory>
    ensures { OnOk result (out.new ≡ out.old ++ separator_part is_first between.now) }
{
    if is_first {
        return Ok(());
    }
    print_bytes(between, out)
}

// The letters with a comma between neighbours.
fn print_letters(letters: &[u8], out: &mut List<u8>) -> Result<(), NoMemory>
    ensures { OnOk result (out.new ≡ out.old ++ join (codes ",") (map (λ x. x ∷ []) letters.now)) }
{
    let mut is_first = true;
    for letter in letters {
        print_separator(is_first, b",", out)?;
        out.push(*letter)?;
        is_first = false;
    }
    Ok(())
}

/// Appends the text of a list of polynomials: their texts, each over its own prime, with a comma and a blank between neighbours.
///
/// # Errors
/// Want of memory.
pub fn print_list(letters: &Letters, polys: &[Poly], out: &mut List<u8>) -> Result<(), NoMemory>
    ensures { OnOk result (out.new ≡ out.old ++ join (codes ", ") (map (λ f. poly_text f.prime letters.now f.terms) polys.now)) }
{
    let mut is_first = true;
    for poly in polys {
        print_separator(is_first, b", ", out)?;
        print_poly(letters, poly, out)?;
        is_first = false;
    }
    Ok(())
}

// The line of a point.
fn print_point(letters: &Letters, line: &PointLine, out: &mut List<u8>) -> Result<(), NoMemory>
    ensures { OnOk result (out.new ≡ out.old ++ own_point_line letters.now line.now) }
{
    print_bytes(b"point ", out)?;
    print_list(letters, line.point.basis.as_slice(), out)?;
    print_bytes(b"; degree ", out)?;
    print_number(line.point.degree, out)?;
    print_bytes(b"; delta ", out)?;
    print_number(line.delta, out)?;
    out.push(b'\n')
}

fn print_points(letters: &Letters, points: &[PointLine], out: &mut List<u8>) -> Result<(), NoMemory>
    ensures { OnOk result (out.new ≡ out.old ++ flat_map (own_point_line letters.now) points.now) }
{
    for line in points {
        print_point(letters, line, out)?;
    }
    Ok(())
}

fn print_numerators(letters: &Letters, polys: &[Poly], out: &mut List<u8>) -> Result<(), NoMemory>
    ensures { OnOk result (out.new ≡ out.old ++ flat_map (own_numerator_line letters.now) polys.now) }
{
    for poly in polys {
        poly_line(b"numerator ", letters, poly, out)?;
    }
    Ok(())
}

// The line that tells the version.
fn print_version(named: Option<u32>, out: &mut List<u8>) -> Result<(), NoMemory>
    ensures { OnOk result (out.new ≡ out.old ++ first_line named) }
{
    match named {
        None => print_bytes(b"locnormal 1\n", out),
        Some(_) => print_bytes(b"locnormal 2\n", out),
    }
}

// The line of the named points, in version 2.
fn print_named(named: Option<u32>, out: &mut List<u8>) -> Result<(), NoMemory>
    ensures { OnOk result (out.new ≡ out.old ++ named_line named) }
{
    match named {
        None => Ok(()),
        Some(count) => number_line(b"named ", count, out),
    }
}

// The line of the variables.
fn letters_line(letters: &Letters, out: &mut List<u8>) -> Result<(), NoMemory>
    ensures { OnOk result (out.new ≡ out.old ++ line (codes "variables ") (join (codes ",") (map (λ x. x ∷ []) letters.now))) }
{
    print_bytes(b"variables ", out)?;
    print_letters(letters.as_slice(), out)?;
    out.push(b'\n')
}

// The lines before the points.
fn print_head(answer: &Answer, out: &mut List<u8>) -> Result<(), NoMemory>
    requires { answer.now.denominator.prime ≡ answer.now.prime }
    ensures { OnOk result (out.new ≡ out.old ++ head_text (data_of answer.now)) }
{
    print_version(answer.named, out)?;
    number_line(b"characteristic ", answer.prime.get(), out)?;
    letters_line(&answer.letters, out)?;
    poly_line(b"denominator ", &answer.letters, &answer.denominator, out)?;
    number_line(b"dimension ", answer.dimension, out)?;
    print_named(answer.named, out)
}

/// The text of an answer. Its polynomials are over its prime.
pub fn print_answer(alloc: Global, answer: &Answer) -> Result<List<u8>, NoMemory>
    requires denominator { answer.now.denominator.prime ≡ answer.now.prime }
    requires points { All (λ P. All (λ f. f.prime ≡ answer.now.prime) P.point.basis) answer.now.points }
    requires numerators { All (λ f. f.prime ≡ answer.now.prime) answer.now.numerators }
    ensures { IfOk result (λ text. text ≡ answer_text (data_of answer.now)) }
{
    let mut text = List::new(alloc);
    print_head(answer, &mut text)?;
    print_points(&answer.letters, answer.points.as_slice(), &mut text)?;
    number_line(b"power ", answer.power, &mut text)?;
    print_numerators(&answer.letters, answer.numerators.as_slice(), &mut text)?;
    print_bytes(b"end\n", &mut text)?;
    Ok(text)
}
