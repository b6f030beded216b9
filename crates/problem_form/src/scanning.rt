// The statements behind the ring, read for their form and their counts alone.
ghost use Rattle.std.specs.Prelude.{◌≡◌, ◌<◌, ◌≤◌, ◌+◌, IfSome, length, max, Some, None};
ghost use Rattle.problem_form.specs.Tokens.{tokens};
ghost use Rattle.problem_form.specs.Words.{class_of};
ghost use Rattle.problem_form.specs.Scanning.{Grows, operand, start, end_expression, end_statement, after_factor, after_base, exponent, in_expression, next_statement, counting, poly_name, poly_equals, step, scan, first_scan};

use crate::tokens::next_token;
use crate::words::{Class, class_of, digits_in, is_name, is_token};

/// What was read last.
#[derive(Clone, Copy, Debug, PartialEq, Eq)]
pub enum Place {
    /// Nothing of an expression yet.
    Start,
    /// A sign or a star.
    Operand,
    /// A base, behind which a caret may stand.
    Base,
    Caret,
    /// A factor, behind which no caret may stand.
    Factor,
    /// A whole statement.
    Between,
    /// The word `poly`.
    PolyName,
    /// The name of the denominator.
    PolyEquals,
}

/// A statement behind the ring.
#[derive(Clone, Copy, Debug, PartialEq, Eq)]
pub enum Part {
    Ideal,
    Poly,
    At,
}

/// Where a reader of statements stands, and what it has counted.
#[derive(Clone, Copy, Debug, PartialEq, Eq)]
pub struct Scan {
    pub place: Place,
    pub part: Part,
    /// Open parentheses here, and the most at one place so far.
    pub depth: usize,
    pub nesting: usize,
    /// The most digits of a number so far.
    pub digits: usize,
    /// Whole expressions of this statement.
    pub expressions: usize,
    pub generators: usize,
    /// The `at` statements, and the most expressions of one.
    pub statements: usize,
    pub longest: usize,
}

impl Scan {
    /// Behind `ideal`, its name and `=`.
    pub fn first() -> Scan
        ensures { result ≡ first_scan }
    {
        Scan {
            place: Place::Start,
            part: Part::Ideal,
            depth: 0,
            nesting: 0,
            digits: 0,
            expressions: 0,
            generators: 0,
            statements: 0,
            longest: 0,
        }
    }

    fn at(self, place: Place) -> Scan
        ensures { result ≡ record self { place = place } }
    {
        Scan { place, ..self }
    }

    // A sign or a star wants an operand.
    fn operand(self, class: Class) -> Option<Scan>
        requires { self.depth < usize.MAX }
        ensures exact { result ≡ operand class self }
        ensures grows { IfSome result (λ next. Grows self next) }
    {
        match class {
            Class::Open => {
                let depth = self.depth + 1;
                Some(Scan {
                    place: Place::Start,
                    depth,
                    nesting: self.nesting.max(depth),
                    ..self
                })
            }
            Class::Number | Class::Variable => Some(self.at(Place::Base)),
            Class::Run => Some(self.at(Place::Factor)),
            _ => None,
        }
    }

    fn start(self, class: Class) -> Option<Scan>
        requires { self.depth < usize.MAX }
        ensures exact { result ≡ start class self }
        ensures grows { IfSome result (λ next. Grows self next) }
    {
        match class {
            Class::Plus | Class::Minus => Some(self.at(Place::Operand)),
            _ => self.operand(class),
        }
    }

    // The statement with one whole expression more.
    fn end_statement(self) -> Scan
        requires { self.expressions < usize.MAX }
        ensures { result ≡ end_statement self }
    {
        let expressions = self.expressions + 1;
        match self.part {
            Part::Ideal => Scan {
                place: Place::Between,
                generators: expressions,
                ..self
            },
            Part::Poly => self.at(Place::Between),
            Part::At => Scan {
                place: Place::Between,
                longest: self.longest.max(expressions),
                ..self
            },
        }
    }

    // A comma behind an expression; there is none in the statement of a denominator.
    fn end_expression(self) -> Option<Scan>
        requires { self.expressions < usize.MAX }
        ensures exact { result ≡ end_expression self }
        ensures grows { IfSome result (λ next. Grows self next) }
    {
        if self.depth != 0 || self.part == Part::Poly {
            return None;
        }
        Some(Scan {
            place: Place::Start,
            expressions: self.expressions + 1,
            ..self
        })
    }

    fn after_factor(self, class: Class) -> Option<Scan>
        requires { self.expressions < usize.MAX }
        ensures exact { result ≡ after_factor class self }
        ensures grows { IfSome result (λ next. Grows self next) }
    {
        match class {
            Class::Star | Class::Plus | Class::Minus => Some(self.at(Place::Operand)),
            Class::Close if self.depth != 0 => Some(Scan {
                place: Place::Base,
                depth: self.depth - 1,
                ..self
            }),
            Class::Comma => self.end_expression(),
            Class::Semicolon if self.depth == 0 => Some(self.end_statement()),
            _ => None,
        }
    }

    fn after_base(self, class: Class) -> Option<Scan>
        requires { self.expressions < usize.MAX }
        ensures exact { result ≡ after_base class self }
        ensures grows { IfSome result (λ next. Grows self next) }
    {
        match class {
            Class::Caret => Some(self.at(Place::Caret)),
            _ => self.after_factor(class),
        }
    }

    fn exponent(self, class: Class) -> Option<Scan>
        ensures exact { result ≡ exponent class self }
        ensures grows { IfSome result (λ next. Grows self next) }
    {
        match class {
            Class::Number => Some(self.at(Place::Factor)),
            _ => None,
        }
    }

    fn in_expression(self, class: Class) -> Option<Scan>
        requires depth { self.depth < usize.MAX }
        requires expressions { self.expressions < usize.MAX }
        ensures exact { result ≡ in_expression class self }
        ensures grows { IfSome result (λ next. Grows self next) }
    {
        match self.place {
            Place::Start => self.start(class),
            Place::Operand => self.operand(class),
            Place::Base => self.after_base(class),
            Place::Caret => self.exponent(class),
            Place::Factor => self.after_factor(class),
            _ => None,
        }
    }

    // `poly` stands behind the ideal alone, `at` behind each statement.
    fn next_statement(self, token: &[u8]) -> Option<Scan>
        requires { self.statements < usize.MAX }
        ensures exact { result ≡ next_statement token.now self }
        ensures grows { IfSome result (λ next. Grows self next) }
    {
        if is_token(token, b"at") {
            return Some(Scan {
                place: Place::Start,
                part: Part::At,
                expressions: 0,
                statements: self.statements + 1,
                ..self
            });
        }
        if is_token(token, b"poly") && self.part == Part::Ideal {
            return Some(Scan {
                place: Place::PolyName,
                part: Part::Poly,
                expressions: 0,
                ..self
            });
        }
        None
    }

    // With the digits of this token counted.
    fn counting(self, token: &[u8]) -> Scan
        ensures { result ≡ counting token.now self }
    {
        Scan {
            digits: self.digits.max(digits_in(token)),
            ..self
        }
    }

    // The token is in an expression.
    fn expression_step(self, letters: &[u8], token: &[u8]) -> Option<Scan>
        requires depth { self.depth < usize.MAX }
        requires expressions { self.expressions < usize.MAX }
        ensures exact { result ≡ in_expression (class_of letters.now token.now) (counting token.now self) }
        ensures grows { IfSome result (λ next. Grows self next) }
    {
        self.counting(token).in_expression(class_of(letters, token))
    }

    fn poly_name(self, token: &[u8]) -> Option<Scan>
        ensures exact { result ≡ poly_name token.now self }
        ensures grows { IfSome result (λ next. Grows self next) }
    {
        if !is_name(token) {
            return None;
        }
        Some(self.at(Place::PolyEquals))
    }

    fn poly_equals(self, token: &[u8]) -> Option<Scan>
        ensures exact { result ≡ poly_equals token.now self }
        ensures grows { IfSome result (λ next. Grows self next) }
    {
        if !is_token(token, b"=") {
            return None;
        }
        Some(self.at(Place::Start))
    }

    /// The place behind this token, or `None` where the token may not stand here.
    #[tactic(auto, unfolding(crate::specs::Scanning::step))]
    pub fn step(self, letters: &[u8], token: &[u8]) -> Option<Scan>
        requires depth { self.depth < usize.MAX }
        requires expressions { self.expressions < usize.MAX }
        requires statements { self.statements < usize.MAX }
        ensures exact { result ≡ step letters.now self token.now }
        ensures grows { IfSome result (λ next. Grows self next) }
    {
        match self.place {
            Place::Between => self.next_statement(token),
            Place::PolyName => self.poly_name(token),
            Place::PolyEquals => self.poly_equals(token),
            _ => self.expression_step(letters, token),
        }
    }
}

/// The counts of the statements behind `ideal`, its name and `=`, or `None` where they have another form.
pub fn scan_statements(letters: &[u8], text: &[u8]) -> Option<Scan>
    ensures { result ≡ scan letters.now first_scan (tokens text.now) }
{
    let mut scan = Scan::first();
    let mut rest = text;
    while let Some((token, after)) = next_token(rest) {
        scan = scan.step(letters, token)?;
        rest = after;
    }
    Some(scan)
}
