// The values of digits, and monomials raised by a variable.
ghost use Rattle.std.specs.Prelude.{◌≡◌, ◌≤◌, ◌<◌, ◌+◌, ◌-◌};
ghost use Rattle.monomials.specs.declared.mono.TheConstants.{MAX_DEGREE};
ghost use Rattle.monomials.specs.Mono.{unit, total_degree, IsMono};
ghost use Rattle.poly_text.specs.Raising.{raised};

use monomials::Mono;

/// The value of a digit.
pub fn digit_value(digit: u8) -> u32
    ensures exact { result ≡ digit - 48 }
    ensures small { result ≤ 207 }
{
    u32::from(digit.saturating_sub(b'0'))
}

// The power `e` of the variable `v`, by about log e products.
fn variable_power(v: u32, e: u32) -> Mono
    requires variable { v < 6 }
    requires room { e ≤ MAX_DEGREE }
    ensures value { result ≡ raised unit v e }
    ensures degree { total_degree result.exponents ≡ e }
{
    if e == 0 {
        return Mono::one();
    }
    let half = variable_power(v, e / 2);
    let square = Mono::product(&half, &half);
    if e.is_multiple_of(2) {
        return square;
    }
    Mono::product(&square, &Mono::var(v))
}

/// The monomial with the exponent of the variable `v` raised by `e`.
pub fn raised(mono: Mono, v: u32, e: u32) -> Mono
    requires variable { v < 6 }
    requires room { total_degree mono.exponents + e ≤ MAX_DEGREE }
    requires known { IsMono mono }
    ensures { result ≡ raised mono v e }
{
    Mono::product(&mono, &variable_power(v, e))
}
