// Polynomials printed.
ghost use Rattle.std.specs.Prelude.{◌≡◌, ℕ, ◌<◌, ◌≤◌, ◌++◌, [], ◌∷◌, ◌==◌, ◌&&◌, if◌then◌else◌, codes, decimal, length, drop};
ghost use Rattle.problem.specs.declared.limits.TheConstants.{MAX_LETTERS};
ghost use Rattle.monomials.specs.Mono.{Monomial};
ghost use Rattle.poly_text.specs.Parts.{star, factor_text, factors_text, is_some, size_part, sign_text, terms_text};
ghost use Rattle.poly_text.specs.PolyText.{power_text, factors, term_text, later_text, poly_text, shown_size, is_shown_negative};
ghost use Rattle.poly_text.specs.Printing.{Prints};

use itoa::Buffer;
use lists::{List, NoMemory};
use monomials::Mono;
use polys::{Poly, Term};
use prime_field::Prime;
use problem::Letters;

/// Appends the bytes. Out of memory, a prefix of them is appended.
pub fn print_bytes(bytes: &[u8], out: &mut List<u8>) -> Result<(), NoMemory>
    ensures { Prints result out.old out.new bytes.now }
{
    for byte in bytes {
        out.push(*byte)?;
    }
    Ok(())
}

/// Appends the number in decimal, without leading zeros. Out of memory, a prefix of it is appended.
pub fn print_number(n: u32, out: &mut List<u8>) -> Result<(), NoMemory>
    ensures { Prints result out.old out.new (decimal n) }
{
    let mut buffer = Buffer::new();
    print_bytes(buffer.format(n).as_bytes(), out)
}

fn print_power(letter: u8, exponent: u32, out: &mut List<u8>) -> Result<(), NoMemory>
    ensures { Prints result out.old out.new (power_text letter exponent) }
{
    out.push(letter)?;
    if exponent == 1 {
        return Ok(());
    }
    out.push(b'^')?;
    print_number(exponent, out)
}

// The star between two factors.
fn print_star(is_first: bool, out: &mut List<u8>) -> Result<(), NoMemory>
    ensures { Prints result out.old out.new (star is_first) }
{
    if is_first {
        return Ok(());
    }
    out.push(b'*')
}

// The star that stands before a factor unless it comes first, and the power, unless the exponent is 0.
fn print_factor(
    letter: u8,
    exponent: u32,
    is_first: bool,
    out: &mut List<u8>,
) -> Result<(), NoMemory>
    ensures { Prints result out.old out.new (factor_text is_first letter exponent) }
{
    if exponent == 0 {
        return Ok(());
    }
    print_star(is_first, out)?;
    print_power(letter, exponent, out)
}

// Whether no factor was printed yet, after one with this exponent.
fn stays_first(is_first: bool, exponent: u32) -> bool
    ensures { result ≡ (is_first && exponent == 0) }
{
    is_first && exponent == 0
}

// The factors of a monomial from the first letter on.
fn print_factors(
    letters: &[u8],
    mono: &Mono,
    is_first: bool,
    out: &mut List<u8>,
) -> Result<(), NoMemory>
    requires few { length letters.now ≤ MAX_LETTERS }
    requires seven { length mono.now.exponents ≡ 7 }
    ensures { Prints result out.old out.new (factors_text is_first letters.now mono.now.exponents) }
{
    let mut is_first = is_first;
    let mut v = 0;
    for letter in letters {
        let exponent = mono.exponent(v);
        print_factor(*letter, exponent, is_first, out)?;
        is_first = stays_first(is_first, exponent);
        v += 1;
    }
    Ok(())
}

// Whether a letter has an exponent that is not 0.
fn has_factor(letters: &[u8], mono: &Mono) -> bool
    requires few { length letters.now ≤ MAX_LETTERS }
    requires seven { length mono.now.exponents ≡ 7 }
    ensures { result ≡ is_some (factors letters.now mono.now.exponents) }
{
    for v in 0..letters.len() as u32 {
        if mono.exponent(v) != 0 {
            return true;
        }
    }
    false
}

// Whether the size of a coefficient is left out: it is 1, and a factor follows.
fn is_left_out(letters: &[u8], mono: &Mono, size: u32) -> bool
    requires few { length letters.now ≤ MAX_LETTERS }
    requires seven { length mono.now.exponents ≡ 7 }
    ensures { result ≡ (size == 1 && is_some (factors letters.now mono.now.exponents)) }
{
    size == 1 && has_factor(letters, mono)
}

// The size of a coefficient, unless it is left out.
fn print_size(is_left_out: bool, size: u32, out: &mut List<u8>) -> Result<(), NoMemory>
    ensures { Prints result out.old out.new (size_part is_left_out size) }
{
    if is_left_out {
        return Ok(());
    }
    print_number(size, out)
}

// Whether the shown coefficient is negative, and its absolute value.
fn shown(prime: Prime, coeff: u32) -> (bool, u32)
    requires { coeff < prime }
    ensures negative { result.0 ≡ is_shown_negative prime coeff }
    ensures size { result.1 ≡ shown_size prime coeff }
{
    let value = prime.symmetric(coeff);
    (value < 0, value.unsigned_abs())
}

// A term without its sign.
fn print_term(prime: Prime, letters: &[u8], term: &Term, out: &mut List<u8>) -> Result<(), NoMemory>
    requires residue { term.now.coeff < prime }
    requires few { length letters.now ≤ MAX_LETTERS }
    requires seven { length term.now.mono.exponents ≡ 7 }
    ensures { Prints result out.old out.new (term_text prime letters.now term.now) }
{
    let (_, size) = shown(prime, term.coeff);
    let is_bare = is_left_out(letters, &term.mono, size);
    print_size(is_bare, size, out)?;
    print_factors(letters, &term.mono, is_bare, out)
}

// The sign before a term.
fn print_sign(is_first: bool, is_negative: bool, out: &mut List<u8>) -> Result<(), NoMemory>
    ensures { Prints result out.old out.new (sign_text is_first is_negative) }
{
    if is_negative {
        return out.push(b'-');
    }
    if is_first {
        return Ok(());
    }
    out.push(b'+')
}

// A term with its sign.
fn print_signed(
    prime: Prime,
    letters: &[u8],
    term: &Term,
    is_first: bool,
    out: &mut List<u8>,
) -> Result<(), NoMemory>
    requires residue { term.now.coeff < prime }
    requires few { length letters.now ≤ MAX_LETTERS }
    requires seven { length term.now.mono.exponents ≡ 7 }
    ensures { Prints result out.old out.new (sign_text is_first (is_shown_negative prime term.now.coeff) ++ term_text prime letters.now term.now) }
{
    let (is_negative, _) = shown(prime, term.coeff);
    print_sign(is_first, is_negative, out)?;
    print_term(prime, letters, term, out)
}

/// Appends the text of a polynomial: its terms from the greatest on, each coefficient c from 1 to p - 1 as c
/// where it is at most p/2 rounded down and as c - p otherwise, and the variables by their letters. Out of
/// memory, a prefix of the text is appended.
pub fn print_poly(letters: &Letters, poly: &Poly, out: &mut List<u8>) -> Result<(), NoMemory>
    ensures { Prints result out.old out.new (poly_text poly.now.prime letters.now poly.now.terms) }
{
    let terms = poly.terms();
    if terms.is_empty() {
        return out.push(b'0');
    }
    let names = letters.as_slice();
    let mut is_first = true;
    for term in terms {
        print_signed(poly.prime(), names, term, is_first, out)?;
        is_first = false;
    }
    Ok(())
}
