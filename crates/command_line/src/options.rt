// The options behind a command's word.
ghost use Rattle.std.specs.Prelude.{◌≡◌, ◌≤◌, ℕ, List, [], ◌∷◌, ◌+◌, ◌++◌, map, string_bytes, codes, length, IfSome, MatchOption, IsTrue, ◌↔◌, Some};
ghost use Rattle.module_basis.specs.declared.cap.TheConstants.{MAX_CAP};
ghost use Rattle.command_line.specs.Options.{IsNumberUpTo, IsSetting, IsJoined, Adds, Gives};
ghost use Rattle.command_line.specs.declared.options.Given.{Given};
ghost use Rattle.command_line.specs.declared.options.Setting.{Setting};

use module_basis::MAX_CAP;
use singular_text::{is_number, number_up_to};

/// The most workers.
pub const MAX_WORKERS: u32 = 16;

/// The greatest limit of delta, which is the limit where no option is given.
pub const MAX_LIMIT: u32 = 64;

// The most digits of a value.
const MAX_DIGITS: usize = 4;

/// What one option sets.
#[derive(Clone, Copy)]
pub enum Setting {
    Workers(u32),
    Degree(u32),
    Delta(u32),
}

/// What the options set, each at most once.
#[derive(Clone, Copy)]
pub struct Given {
    pub workers: Option<u32>,
    pub degree: Option<u32>,
    pub delta: Option<u32>,
}

// The number from 1 to `most` that a word writes.
pub(crate) fn number_in(most: u32, word: &[u8]) -> Option<u32>
    requires { most ≤ MAX_CAP }
    ensures found { IfSome result (λ n. IsNumberUpTo most word.now n) }
    ensures complete { (n : ℕ) → IsNumberUpTo most word.now n → result ≡ Some n }
{
    if word.len() > MAX_DIGITS || !is_number(word) {
        return None;
    }
    let value = number_up_to(most + 1, word);
    if value == 0 || value > most {
        return None;
    }
    Some(value)
}

// Whether the word is this text.
pub(crate) fn is_text(word: &[u8], text: &[u8]) -> bool
    ensures { IsTrue result ↔ (word.now ≡ text.now) }
{
    word == text
}

// What `--workers` and a value set.
fn workers_of(name: &[u8], value: &[u8]) -> Option<u32>
    ensures found { IfSome result (λ workers. (name.now ≡ codes "--workers") × IsNumberUpTo MAX_WORKERS value.now workers) }
    ensures complete { (workers : ℕ) → name.now ≡ codes "--workers" → IsNumberUpTo MAX_WORKERS value.now workers → result ≡ Some workers }
{
    if !is_text(name, b"--workers") {
        return None;
    }
    number_in(MAX_WORKERS, value)
}

// What `--degree` and a value set.
fn degree_of(name: &[u8], value: &[u8]) -> Option<u32>
    ensures found { IfSome result (λ cap. (name.now ≡ codes "--degree") × IsNumberUpTo MAX_CAP value.now cap) }
    ensures complete { (cap : ℕ) → name.now ≡ codes "--degree" → IsNumberUpTo MAX_CAP value.now cap → result ≡ Some cap }
{
    if !is_text(name, b"--degree") {
        return None;
    }
    number_in(MAX_CAP, value)
}

// What `--delta` and a value set.
fn delta_of(name: &[u8], value: &[u8]) -> Option<u32>
    ensures found { IfSome result (λ limit. (name.now ≡ codes "--delta") × IsNumberUpTo MAX_LIMIT value.now limit) }
    ensures complete { (limit : ℕ) → name.now ≡ codes "--delta" → IsNumberUpTo MAX_LIMIT value.now limit → result ≡ Some limit }
{
    if !is_text(name, b"--delta") {
        return None;
    }
    number_in(MAX_LIMIT, value)
}

// What an option's name and its value set.
fn setting_of(name: &[u8], value: &[u8]) -> Option<Setting>
    ensures found { IfSome result (λ setting. IsSetting name.now value.now setting) }
    ensures complete { (setting : Setting) → IsSetting name.now value.now setting → result ≡ Some setting }
{
    if let Some(workers) = workers_of(name, value) {
        return Some(Setting::Workers(workers));
    }
    if let Some(cap) = degree_of(name, value) {
        return Some(Setting::Degree(cap));
    }
    Some(Setting::Delta(delta_of(name, value)?))
}

// The number behind `--workers=`.
fn joined_workers(word: &[u8]) -> Option<u32>
    ensures found { IfSome result (λ n. (value : List ℕ) × (word.now ≡ codes "--workers=" ++ value) × IsNumberUpTo MAX_WORKERS value n) }
    ensures complete { (value : List ℕ) (n : ℕ) → word.now ≡ codes "--workers=" ++ value → IsNumberUpTo MAX_WORKERS value n → result ≡ Some n }
{
    number_in(MAX_WORKERS, word.strip_prefix(b"--workers=".as_slice())?)
}

// The cap behind `--degree=`.
fn joined_degree(word: &[u8]) -> Option<u32>
    ensures found { IfSome result (λ n. (value : List ℕ) × (word.now ≡ codes "--degree=" ++ value) × IsNumberUpTo MAX_CAP value n) }
    ensures complete { (value : List ℕ) (n : ℕ) → word.now ≡ codes "--degree=" ++ value → IsNumberUpTo MAX_CAP value n → result ≡ Some n }
{
    number_in(MAX_CAP, word.strip_prefix(b"--degree=".as_slice())?)
}

// The limit behind `--delta=`.
fn joined_delta(word: &[u8]) -> Option<u32>
    ensures found { IfSome result (λ n. (value : List ℕ) × (word.now ≡ codes "--delta=" ++ value) × IsNumberUpTo MAX_LIMIT value n) }
    ensures complete { (value : List ℕ) (n : ℕ) → word.now ≡ codes "--delta=" ++ value → IsNumberUpTo MAX_LIMIT value n → result ≡ Some n }
{
    number_in(MAX_LIMIT, word.strip_prefix(b"--delta=".as_slice())?)
}

// What an option with its value in one word sets.
fn joined_setting(word: &[u8]) -> Option<Setting>
    ensures found { IfSome result (λ setting. IsJoined word.now setting) }
    ensures complete { (setting : Setting) → IsJoined word.now setting → result ≡ Some setting }
{
    if let Some(workers) = joined_workers(word) {
        return Some(Setting::Workers(workers));
    }
    if let Some(cap) = joined_degree(word) {
        return Some(Setting::Degree(cap));
    }
    Some(Setting::Delta(joined_delta(word)?))
}

// What is set with this option too, or `None` where it was given before.
fn with_setting(given: Given, setting: Setting) -> Option<Given>
    ensures found { IfSome result (λ after. Adds given setting after) }
    ensures complete { (after : Given) → Adds given setting after → result ≡ Some after }
{
    match setting {
        Setting::Workers(workers) if given.workers.is_none() => Some(Given {
            workers: Some(workers),
            ..given
        }),
        Setting::Degree(cap) if given.degree.is_none() => Some(Given {
            degree: Some(cap),
            ..given
        }),
        Setting::Delta(limit) if given.delta.is_none() => Some(Given {
            delta: Some(limit),
            ..given
        }),
        _ => None,
    }
}

// The first word, and the words behind it.
pub(crate) fn first_word(words: &[String]) -> Option<(&[u8], &[String])>
    ensures words { MatchOption result (map string_bytes words.now ≡ []) (λ p. map string_bytes words.now ≡ p.0.now ∷ map string_bytes p.1.now) }
    ensures shorter { IfSome result (λ p. length p.1.now + 1 ≡ length words.now) }
{
    let (first, behind) = words.split_first()?;
    Some((first.as_bytes(), behind))
}

// What the words of options set, or `None` where one of them is no option.
pub(crate) fn given_in(words: &[String]) -> Option<Given>
    ensures found { IfSome result (λ given. Gives (map string_bytes words.now) given) }
    ensures complete { (given : Given) → Gives (map string_bytes words.now) given → result ≡ Some given }
{
    let Some((word, behind)) = first_word(words) else {
        return Some(Given {
            workers: None,
            degree: None,
            delta: None,
        });
    };
    if let Some(setting) = joined_setting(word) {
        return with_setting(given_in(behind)?, setting);
    }
    let (value, rest) = first_word(behind)?;
    let setting = setting_of(word, value)?;
    with_setting(given_in(rest)?, setting)
}
