// The numbers and monomials that words write.
ghost use Rattle.std.specs.Prelude.{◌≡◌, ◌≤◌, ◌<◌, ◌+◌, ◌*◌, ◌-◌, ◌%◌, min, length, take, true, ◌∷◌, IfSome, MatchOption};
ghost use Rattle.monomials.specs.Mono.{unit, total_degree, IsMono};
ghost use Rattle.problem.specs.Letters.{is_among, place};
ghost use Rattle.problem_form.specs.Words.{are_run_bytes};
ghost use Rattle.poly_text.specs.Digits.{number};
ghost use Rattle.problem.specs.declared.limits.TheConstants.{MAX_VALUE_DEGREE, MAX_LETTERS};
ghost use Rattle.singular_text.specs.Values.{front_digits, front_number, run_after, run_monomial};
ghost use Rattle.poly_text.specs.Raising.{raised};

use monomials::Mono;
use poly_text::{digit_value, raised};
use prime_field::Prime;
use problem::limits::MAX_VALUE_DEGREE;
use problem::place;

/// The number of these digits modulo p.
pub fn number_modulo(prime: Prime, digits: &[u8]) -> u32
    ensures exact { result ≡ number digits.now % prime }
    ensures residue { result < prime }
{
    let p = prime.get();
    let mut sum = 0;
    for digit in digits {
        sum = (sum * 10 + digit_value(*digit)) % p;
    }
    sum
}

/// The number of these digits, or `most` where it is greater.
pub fn number_up_to(most: u32, digits: &[u8]) -> u32
    requires { most ≤ 100000 }
    ensures { result ≡ min (number digits.now) most }
{
    let mut sum = 0u32;
    for digit in digits {
        sum = (sum * 10 + digit_value(*digit)).min(most);
    }
    sum
}

/// The number of digits at the front.
pub fn digits_at_front(word: &[u8]) -> usize
    ensures within { result ≤ length word.now }
    ensures digits { take result word.now ≡ front_digits word.now }
{
    for (i, byte) in word.iter().enumerate() {
        if !byte.is_ascii_digit() {
            return i;
        }
    }
    word.len()
}

// The monomial with a letter of a run raised by the number behind it, or `None` where the degree is above 60.
fn with_letter(letters: &[u8], mono: Mono, letter: u8, behind: &[u8]) -> Option<Mono>
    requires few { length letters.now ≤ MAX_LETTERS }
    requires among { is_among letters.now letter ≡ true }
    requires known { IsMono mono }
    requires small { total_degree mono.exponents ≤ MAX_VALUE_DEGREE }
    ensures exact { MatchOption result (MAX_VALUE_DEGREE < total_degree mono.exponents + front_number behind.now) (λ m. m ≡ raised mono (place letters.now letter) (front_number behind.now)) }
    ensures known { IfSome result (λ m. IsMono m × (total_degree m.exponents ≤ MAX_VALUE_DEGREE)) }
{
    let e = exponent_at(behind);
    if mono.degree() + e > MAX_VALUE_DEGREE {
        return None;
    }
    Some(raised(mono, place(letters, letter) as u32, e))
}

// The monomial behind a byte of a run, or `None` where the degree of the whole is above 60.
fn with_byte(letters: &[u8], mono: Mono, byte: u8, behind: &[u8]) -> Option<Mono>
    requires few { length letters.now ≤ MAX_LETTERS }
    requires bytes { are_run_bytes letters.now (byte ∷ behind.now) ≡ true }
    requires known { IsMono mono }
    requires small { total_degree mono.exponents ≤ MAX_VALUE_DEGREE }
    ensures exact { MatchOption result (MAX_VALUE_DEGREE < total_degree (run_after letters.now mono (byte ∷ behind.now)).exponents) (λ m. run_after letters.now m behind.now ≡ run_after letters.now mono (byte ∷ behind.now)) }
    ensures known { IfSome result (λ m. IsMono m × (total_degree m.exponents ≤ MAX_VALUE_DEGREE)) }
{
    if byte.is_ascii_digit() {
        return Some(mono);
    }
    with_letter(letters, mono, byte, behind)
}

/// The monomial of a run, or `None` where its degree is above 60.
pub fn run_monomial(letters: &[u8], word: &[u8]) -> Option<Mono>
    requires few { length letters.now ≤ MAX_LETTERS }
    requires bytes { are_run_bytes letters.now word.now ≡ true }
    ensures exact { MatchOption result (MAX_VALUE_DEGREE < total_degree (run_monomial letters.now word.now).exponents) (λ m. m ≡ run_monomial letters.now word.now) }
    ensures known { IfSome result (λ m. IsMono m × (total_degree m.exponents ≤ MAX_VALUE_DEGREE)) }
{
    let mut mono = Mono::one();
    for (i, byte) in word.iter().enumerate() {
        mono = with_byte(letters, mono, *byte, &word[i + 1..])?;
    }
    Some(mono)
}

// The number at the front, which is 1 where no digit stands there, or 61 where it is greater.
fn exponent_at(word: &[u8]) -> u32
    ensures { result ≡ min (front_number word.now) (MAX_VALUE_DEGREE + 1) }
{
    let count = digits_at_front(word);
    if count == 0 {
        return 1;
    }
    number_up_to(MAX_VALUE_DEGREE + 1, &word[..count])
}

/// The number at the front of a run modulo p, which is 1 where no digit stands there.
pub fn front_modulo(prime: Prime, word: &[u8]) -> u32
    ensures exact { result ≡ front_number word.now % prime }
    ensures residue { result < prime }
{
    let count = digits_at_front(word);
    if count == 0 {
        return 1;
    }
    number_modulo(prime, &word[..count])
}
