// What the tokens of a problem are.
ghost use Rattle.std.specs.Prelude.{◌≡◌, ◌==◌, ◌&&◌, ◌||◌, ◌+◌, ◌<◌, ◌≤◌, nat_lt, if◌then◌else◌, not, length};
ghost use Rattle.std.specs.List.{list_all};
ghost use Rattle.std.specs.Char.{is_ascii_digit};
ghost use Rattle.problem.specs.Letters.{is_among};
ghost use Rattle.problem_form.specs.Words.{are_run_bytes, is_name, is_number, is_run, class_of_byte, class_of_mark, class_of, same_token, digits_in};

use problem::is_among;

/// What a token is in an expression.
#[derive(Clone, Copy, Debug, PartialEq, Eq)]
pub enum Class {
    Open,
    Close,
    Caret,
    Star,
    Plus,
    Minus,
    Comma,
    Semicolon,
    Number,
    Variable,
    Run,
    Other,
}

/// Whether the token is this word or mark.
pub fn is_token(token: &[u8], word: &[u8]) -> bool
    ensures { result ≡ same_token token.now word.now }
{
    token == word
}

// The digits in a row that end with the byte, behind `count` of them.
fn digits_up_to(count: usize, byte: u8) -> usize
    requires { count < usize.MAX }
    ensures exact { result ≡ (if is_ascii_digit byte then count + 1 else 0) }
    ensures few { result ≤ count + 1 }
{
    if byte.is_ascii_digit() { count + 1 } else { 0 }
}

/// The most digits in a row.
pub fn digits_in(token: &[u8]) -> usize
    ensures { result ≡ digits_in token.now }
{
    let mut most = 0;
    let mut count: usize = 0;
    for byte in token {
        count = digits_up_to(count, *byte);
        most = count.max(most);
    }
    most
}

/// Whether the token is a word that begins with a letter.
pub fn is_name(token: &[u8]) -> bool
    ensures { result ≡ is_name token.now }
{
    match token.first() {
        Some(byte) => byte.is_ascii_alphabetic(),
        None => false,
    }
}

fn are_digits(token: &[u8]) -> bool
    ensures { result ≡ list_all is_ascii_digit token.now }
{
    token.iter().all(|byte| byte.is_ascii_digit())
}

/// Whether the token has digits alone.
pub fn is_number(token: &[u8]) -> bool
    ensures { result ≡ is_number token.now }
{
    !token.is_empty() && are_digits(token)
}

fn are_run_bytes(letters: &[u8], token: &[u8]) -> bool
    ensures { result ≡ are_run_bytes letters.now token.now }
{
    token
        .iter()
        .all(|byte| byte.is_ascii_digit() || is_among(letters, *byte))
}

// Whether the token is a run of digits and letters, as `2x3y`.
fn is_run(letters: &[u8], token: &[u8]) -> bool
    ensures { result ≡ is_run letters.now token.now }
{
    token.len() > 1 && are_run_bytes(letters, token) && !is_number(token)
}

#[tactic(auto, unfolding(crate::specs::Words::class_of_byte))]
fn class_of_byte(letters: &[u8], byte: u8) -> Class
    ensures { result ≡ class_of_byte letters.now byte }
{
    match byte {
        b'(' => Class::Open,
        b')' => Class::Close,
        b'^' => Class::Caret,
        b'*' => Class::Star,
        b'+' => Class::Plus,
        b'-' => Class::Minus,
        b',' => Class::Comma,
        b';' => Class::Semicolon,
        _ => {
            if is_among(letters, byte) {
                Class::Variable
            } else {
                Class::Other
            }
        }
    }
}

fn class_of_mark(letters: &[u8], token: &[u8]) -> Class
    ensures { result ≡ class_of_mark letters.now token.now }
{
    match token {
        [byte] => class_of_byte(letters, *byte),
        _ => Class::Other,
    }
}

/// What the token is in an expression over the letters.
#[tactic(auto, unfolding(crate::specs::Words::class_of))]
pub fn class_of(letters: &[u8], token: &[u8]) -> Class
    ensures { result ≡ class_of letters.now token.now }
{
    if is_number(token) {
        return Class::Number;
    }
    if is_run(letters, token) {
        return Class::Run;
    }
    class_of_mark(letters, token)
}
