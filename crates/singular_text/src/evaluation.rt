// The values of expressions, whose subexpressions all have at most 2,000 terms and degree 60.
ghost use Rattle.std.specs.Prelude.{◌≡◌, ◌<◌, ◌≤◌, ◌+◌, ◌*◌, ◌==◌, [], ◌∷◌, ◌++◌, length, true, IfOk, IfSome, OnOk, Some, Ok, Err, MatchResult};
ghost use Rattle.std.specs.List.{AllByRecursion};
ghost use Rattle.monomials.specs.Mono.{unit, variable, total_degree, IsMono};
ghost use Rattle.polys.specs.Terms.{degree_of, EachMono, IsAffine};
ghost use Rattle.polys.specs.Poly.{IsPlain, power_of, product_of, sum_of, difference_of};
ghost use Rattle.problem_form.specs.Tokens.{tokens};
ghost use Rattle.problem_form.specs.Words.{class_of, is_run, IsLetterOf};
ghost use Rattle.problem.specs.Letters.{is_among, place};
ghost use Rattle.poly_text.specs.Digits.{number};
ghost use Rattle.problem.specs.declared.limits.TheConstants.{MAX_VALUE_DEGREE};
ghost use Rattle.singular_text.specs.Values.{front_number, run_monomial, term_of, is_small};
ghost use Rattle.singular_text.specs.Evaluating.{IsFault, IsReadAs, IsStepReadAs, IsFitFrame, checked, zero_poly, term_with, last_term, sum_with, close, new_frame, signed_frame, with_factor, star, sign_step, constant, variable_token, run_value, power_value, number_step, inner_step, step, evaluate};
ghost use Rattle.problem.specs.Problem.{IsFit};

use crate::faults::{ReadFault, Which};
use crate::values::{front_modulo, number_modulo, number_up_to, run_monomial};
use lists::List;
use monomials::Mono;
use poly_text::digit_value;
use polys::{Poly, Term, degrees_are_bounded, leads_multiply, polynomials_are_a_ring};
use prime_field::Prime;
use problem::limits::{MAX_TERMS, MAX_VALUE_DEGREE};
use problem::{Letters, place};
use problem_form::{Class, class_of, next_token};
use std::alloc::Global;

/// What was read of an expression since the last open parenthesis.
#[derive(Debug, Drop)]
pub struct Frame {
    /// The expression up to the last sign, if a term stands before it.
    sum: Option<Poly>,
    /// Whether the last sign is a minus.
    is_negative: bool,
    /// The term up to the last star.
    product: Option<Poly>,
    /// The last factor.
    factor: Option<Poly>,
    /// Whether a caret stands behind the last factor.
    is_raised: bool,
}

impl Frame {
    fn new() -> Frame
        ensures { result ≡ new_frame }
    {
        Frame {
            sum: None,
            is_negative: false,
            product: None,
            factor: None,
            is_raised: false,
        }
    }

    // Behind a sign.
    fn signed(sum: Option<Poly>, is_negative: bool) -> Frame
        ensures { result ≡ signed_frame sum is_negative }
    {
        Frame {
            sum,
            is_negative,
            product: None,
            factor: None,
            is_raised: false,
        }
    }

    fn with_factor(self, factor: Poly) -> Frame
        ensures { result ≡ with_factor self factor }
    {
        Frame {
            sum: self.sum,
            is_negative: self.is_negative,
            product: self.product,
            factor: Some(factor),
            is_raised: false,
        }
    }

    fn at_caret(self) -> Frame
        ensures { result ≡ record self { is_raised = true } }
    {
        Frame {
            sum: self.sum,
            is_negative: self.is_negative,
            product: self.product,
            factor: self.factor,
            is_raised: true,
        }
    }
}

// The value, where it is small enough.
fn checked(f: Poly) -> Result<Poly, ReadFault>
    ensures exact { result ≡ checked f }
    ensures degree { IfOk result (λ r. (r ≡ f) × (degree_of r.terms ≤ MAX_VALUE_DEGREE)) }
{
    if f.terms().len() > MAX_TERMS || f.degree() > MAX_VALUE_DEGREE {
        return Err(ReadFault::Limit(Which::Size));
    }
    Ok(f)
}

// The power, where it is small enough. One with too many terms is found out by its first terms.
fn small_power(base: &Poly, n: u32) -> Result<Poly, ReadFault>
    requires plain { EachMono IsPlain base.now.terms }
    requires room { degree_of base.now.terms * n ≤ 60000 }
    ensures exact { IsReadAs (λ f. f) result (checked (power_of base.now n)) }
    ensures degree { IfOk result (λ r. (r ≡ power_of base.now n) × (degree_of r.terms ≤ MAX_VALUE_DEGREE)) }
{
    match base.power_within(n, MAX_TERMS)? {
        None => Err(ReadFault::Limit(Which::Size)),
        Some(power) => checked(power),
    }
}

/// The field and the variables in which values are taken.
#[derive(Debug, Drop)]
pub struct Ground {
    pub alloc: Global,
    pub prime: Prime,
    pub letters: Letters,
}

impl Ground {
    fn term_of(&self, coeff: u32, mono: Mono) -> Result<Poly, ReadFault>
        requires residue { coeff < self.now.prime }
        requires known { IsMono mono }
        requires affine { IsAffine (length self.now.letters) mono }
        ensures exact { IsReadAs (λ f. f) result (checked (record { prime = self.now.prime; terms = term_of self.now.prime coeff mono })) }
        ensures fit { IfOk result (IsFit self.now.prime (length self.now.letters)) }
    {
        let f = Poly::from_term(self.alloc, self.prime, Term { coeff, mono })?;
        checked(f)
    }

    fn variable(&self, token: &[u8]) -> Result<Poly, ReadFault>
        requires { IsLetterOf self.now.letters token.now }
        ensures exact { IsReadAs (λ f. f) result (variable_token self.now.prime self.now.letters token.now) }
        ensures fit { IfOk result (IsFit self.now.prime (length self.now.letters)) }
    {
        let [letter] = token else {
            return Err(ReadFault::Syntax);
        };
        let _prime = self.prime.get();
        let v = place(self.letters.as_slice(), *letter);
        self.term_of(1, Mono::var(v as u32))
    }

    fn constant(&self, digits: &[u8]) -> Result<Poly, ReadFault>
        ensures exact { IsReadAs (λ f. f) result (constant self.now.prime digits.now) }
        ensures fit { IfOk result (IsFit self.now.prime (length self.now.letters)) }
    {
        self.term_of(number_modulo(self.prime, digits), Mono::one())
    }

    fn run(&self, word: &[u8]) -> Result<Poly, ReadFault>
        requires { is_run self.now.letters word.now ≡ true }
        ensures exact { IsReadAs (λ f. f) result (run_value self.now.prime self.now.letters word.now) }
        ensures fit { IfOk result (IsFit self.now.prime (length self.now.letters)) }
    {
        let coeff = front_modulo(self.prime, word);
        if coeff == 0 {
            return Ok(Poly::zero(self.alloc, self.prime));
        }
        match run_monomial(self.letters.as_slice(), word) {
            Some(mono) => self.term_of(coeff, mono),
            None => Err(ReadFault::Limit(Which::Size)),
        }
    }

    // The power of a constant; the number of digits does not matter.
    fn constant_power(&self, base: &Poly, digits: &[u8]) -> Result<Poly, ReadFault>
        requires fit { IsFit self.now.prime (length self.now.letters) base.now }
        requires constant { degree_of base.now.terms ≡ 0 }
        ensures exact { IsReadAs (λ f. f) result (Ok (power_of base.now (number digits.now))) }
        ensures fit { IfOk result (IsFit self.now.prime (length self.now.letters)) }
    {
        let _prime = self.prime.get();
        polynomials_are_a_ring();
        degrees_are_bounded();
        let mut power = base.power(0)?;
        for digit in digits {
            let tenth = power.power(10)?;
            power = tenth.mul(&base.power(digit_value(*digit))?)?;
        }
        Ok(power)
    }

    // Modulo a prime the degree of a power is the multiple of the degree.
    fn power(&self, base: &Poly, digits: &[u8]) -> Result<Poly, ReadFault>
        requires { IsFit self.now.prime (length self.now.letters) base.now }
        ensures exact { IsReadAs (λ f. f) result (power_value base.now digits.now) }
        ensures fit { IfOk result (IsFit self.now.prime (length self.now.letters)) }
    {
        let degree = base.degree();
        if degree == 0 {
            return checked(self.constant_power(base, digits)?);
        }
        let _prime = self.prime.get();
        polynomials_are_a_ring();
        leads_multiply();
        let n = number_up_to(MAX_VALUE_DEGREE + 1, digits);
        if n * degree > MAX_VALUE_DEGREE {
            return Err(ReadFault::Limit(Which::Size));
        }
        small_power(base, n)
    }

    fn product(&self, f: &Poly, g: &Poly) -> Result<Poly, ReadFault>
        requires left { IsFit self.now.prime (length self.now.letters) f.now }
        requires right { IsFit self.now.prime (length self.now.letters) g.now }
        ensures exact { IsReadAs (λ f. f) result (checked (product_of f.now g.now)) }
        ensures fit { IfOk result (IsFit self.now.prime (length self.now.letters)) }
    {
        let _prime = self.prime.get();
        polynomials_are_a_ring();
        checked(f.mul(g)?)
    }

    fn sum_of(&self, f: &Poly, g: &Poly) -> Result<Poly, ReadFault>
        requires left { IsFit self.now.prime (length self.now.letters) f.now }
        requires right { IsFit self.now.prime (length self.now.letters) g.now }
        ensures exact { IsReadAs (λ f. f) result (checked (sum_of f.now g.now)) }
        ensures fit { IfOk result (IsFit self.now.prime (length self.now.letters)) }
    {
        let _prime = self.prime.get();
        polynomials_are_a_ring();
        checked(f.add(g)?)
    }

    fn difference(&self, f: &Poly, g: &Poly) -> Result<Poly, ReadFault>
        requires left { IsFit self.now.prime (length self.now.letters) f.now }
        requires right { IsFit self.now.prime (length self.now.letters) g.now }
        ensures exact { IsReadAs (λ f. f) result (checked (difference_of f.now g.now)) }
        ensures fit { IfOk result (IsFit self.now.prime (length self.now.letters)) }
    {
        let _prime = self.prime.get();
        polynomials_are_a_ring();
        checked(f.sub(g)?)
    }

    // The term that these end.
    fn term(&self, product: Option<Poly>, factor: Option<Poly>) -> Result<Poly, ReadFault>
        requires product { IfSome product (IsFit self.now.prime (length self.now.letters)) }
        requires factor { IfSome factor (IsFit self.now.prime (length self.now.letters)) }
        ensures exact { IsReadAs (λ f. f) result (last_term product factor) }
        ensures fit { IfOk result (IsFit self.now.prime (length self.now.letters)) }
    {
        let Some(factor) = factor else {
            return Err(ReadFault::Syntax);
        };
        match product {
            None => Ok(factor),
            Some(product) => self.product(&product, &factor),
        }
    }

    // The expression that the term ends.
    fn sum(&self, sum: Option<Poly>, is_negative: bool, term: Poly) -> Result<Poly, ReadFault>
        requires sum { IfSome sum (IsFit self.now.prime (length self.now.letters)) }
        requires term { IsFit self.now.prime (length self.now.letters) term }
        ensures exact { IsReadAs (λ f. f) result (sum_with self.now.prime sum is_negative term) }
        ensures fit { IfOk result (IsFit self.now.prime (length self.now.letters)) }
    {
        match sum {
            None if !is_negative => Ok(term),
            None => self.difference(&Poly::zero(self.alloc, self.prime), &term),
            Some(sum) if is_negative => self.difference(&sum, &term),
            Some(sum) => self.sum_of(&sum, &term),
        }
    }

    // The whole expression of a frame.
    fn close(&self, frame: Frame) -> Result<Poly, ReadFault>
        requires { IsFitFrame self.now.prime (length self.now.letters) frame }
        ensures exact { IsReadAs (λ f. f) result (close self.now.prime frame) }
        ensures fit { IfOk result (IsFit self.now.prime (length self.now.letters)) }
    {
        let Frame {
            sum,
            is_negative,
            product,
            factor,
            is_raised: _,
        } = frame;
        let term = self.term(product, factor)?;
        self.sum(sum, is_negative, term)
    }

    fn star(&self, frame: Frame) -> Result<Frame, ReadFault>
        requires { IsFitFrame self.now.prime (length self.now.letters) frame }
        ensures exact { IsReadAs (λ f. f) result (star frame) }
        ensures fit { IfOk result (IsFitFrame self.now.prime (length self.now.letters)) }
    {
        let Frame {
            sum,
            is_negative,
            product,
            factor,
            is_raised,
        } = frame;
        let term = self.term(product, factor)?;
        Ok(Frame {
            sum,
            is_negative,
            product: Some(term),
            factor: None,
            is_raised,
        })
    }

    fn sign(&self, frame: Frame, is_negative: bool) -> Result<Frame, ReadFault>
        requires { IsFitFrame self.now.prime (length self.now.letters) frame }
        ensures exact { IsReadAs (λ f. f) result (sign_step self.now.prime frame is_negative) }
        ensures fit { IfOk result (IsFitFrame self.now.prime (length self.now.letters)) }
    {
        if frame.factor.is_none() {
            return Ok(Frame::signed(None, is_negative));
        }
        let sum = self.close(frame)?;
        Ok(Frame::signed(Some(sum), is_negative))
    }

    // A number is an exponent behind a caret.
    fn number(&self, frame: Frame, digits: &[u8]) -> Result<Frame, ReadFault>
        requires { IsFitFrame self.now.prime (length self.now.letters) frame }
        ensures exact { IsReadAs (λ f. f) result (number_step self.now.prime frame digits.now) }
        ensures fit { IfOk result (IsFitFrame self.now.prime (length self.now.letters)) }
    {
        if !frame.is_raised {
            let value = self.constant(digits)?;
            return Ok(frame.with_factor(value));
        }
        let value = match &frame.factor {
            Some(base) => self.power(base, digits)?,
            None => return Err(ReadFault::Syntax),
        };
        Ok(frame.with_factor(value))
    }

    // A token that leaves the open parentheses as they are.
    fn inner_step(&self, class: Class, token: &[u8], frame: Frame) -> Result<Frame, ReadFault>
        requires fit { IsFitFrame self.now.prime (length self.now.letters) frame }
        requires class { class ≡ class_of self.now.letters token.now }
        ensures exact { IsReadAs (λ f. f) result (inner_step self.now.prime self.now.letters class token.now frame) }
        ensures fit { IfOk result (IsFitFrame self.now.prime (length self.now.letters)) }
    {
        match class {
            Class::Caret => Ok(frame.at_caret()),
            Class::Star => self.star(frame),
            Class::Plus => self.sign(frame, false),
            Class::Minus => self.sign(frame, true),
            Class::Number => self.number(frame, token),
            Class::Variable => {
                let value = self.variable(token)?;
                Ok(frame.with_factor(value))
            }
            Class::Run => {
                let value = self.run(token)?;
                Ok(frame.with_factor(value))
            }
            _ => Err(ReadFault::Syntax),
        }
    }

    fn step(
        &self,
        class: Class,
        token: &[u8],
        frame: Frame,
        frames: &mut Vec<Frame>,
    ) -> Result<Frame, ReadFault>
        requires fit { IsFitFrame self.now.prime (length self.now.letters) frame }
        requires outer { AllByRecursion (IsFitFrame self.now.prime (length self.now.letters)) frames.old.items }
        requires class { class ≡ class_of self.now.letters token.now }
        ensures exact { IsStepReadAs result frames.new.items (step self.now.prime self.now.letters class token.now frame frames.old.items) }
        ensures fit { IfOk result (IsFitFrame self.now.prime (length self.now.letters)) }
        ensures outer { OnOk result (AllByRecursion (IsFitFrame self.now.prime (length self.now.letters)) frames.new.items) }
    {
        match class {
            Class::Open => {
                frames.push(frame).map_err(|_| ReadFault::Memory)?;
                Ok(Frame::new())
            }
            Class::Close => {
                let value = self.close(frame)?;
                match frames.pop() {
                    Some(outer) => Ok(outer.with_factor(value)),
                    None => Err(ReadFault::Syntax),
                }
            }
            _ => self.inner_step(class, token, frame),
        }
    }

    /// The values of the expressions up to a semicolon, and the text behind it.
    pub fn list<'a>(&self, text: &'a [u8]) -> Result<(List<Poly>, &'a [u8]), ReadFault>
        ensures exact { IsReadAs (λ r. (r.0, tokens r.1.now)) result (evaluate self.now.prime self.now.letters [] new_frame [] (tokens text.now)) }
        ensures fit { IfOk result (λ r. AllByRecursion (IsFit self.now.prime (length self.now.letters)) r.0) }
    {
        let mut values = List::new(self.alloc);
        let mut frame = Frame::new();
        let mut frames = Vec::new(self.alloc);
        let mut rest = text;
        while let Some((token, after)) = next_token(rest) {
            match class_of(self.letters.as_slice(), token) {
                Class::Semicolon => {
                    values.push(self.close(frame)?)?;
                    return Ok((values, after));
                }
                Class::Comma => {
                    values.push(self.close(frame)?)?;
                    frame = Frame::new();
                }
                class => frame = self.step(class, token, frame, &mut frames)?,
            }
            rest = after;
        }
        Err(ReadFault::Syntax)
    }
}
