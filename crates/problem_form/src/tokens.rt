// The tokens of a text.
ghost use Rattle.std.specs.Prelude.{◌≡◌, ◌==◌, ◌&&◌, ◌<◌, ◌≤◌, ◌+◌, [], ◌∷◌, ◌++◌, List, ℕ, length, true, false, MatchOption, drop, take, not, ◌⊎◌};
ghost use Rattle.problem_form.specs.Tokens.{tokens, tokens_from, is_blank, is_word_byte, begins, StartsToken, front_word, behind_word};

fn is_blank(byte: u8) -> bool
    ensures { result ≡ is_blank byte }
{
    byte == b' ' || byte == b'\t' || byte == b'\n' || byte == b'\r'
}

fn is_word_byte(byte: u8) -> bool
    ensures { result ≡ is_word_byte byte }
{
    byte.is_ascii_alphanumeric() || byte == b'_'
}

// Whether a comment begins with this byte, which stands before the text.
fn begins_comment(byte: u8, text: &[u8]) -> bool
    ensures { result ≡ (byte == 47 && begins (λ c. c == 47) text.now) }
{
    byte == b'/' && text.first() == Some(&b'/')
}

// The text behind the comment in which it begins.
fn skip_comment(text: &[u8]) -> &[u8]
    ensures same { tokens result.now ≡ tokens_from true text.now }
    ensures shorter { length result.now ≤ length text.now }
{
    let mut rest = text;
    while let Some((byte, after)) = rest.split_first() {
        rest = after;
        if *byte == b'\n' {
            return rest;
        }
    }
    rest
}

// The text from its first token on.
fn skip_blanks(text: &[u8]) -> &[u8]
    ensures same { tokens result.now ≡ tokens text.now }
    ensures shorter { length result.now ≤ length text.now }
    ensures stops { StartsToken result.now }
{
    let mut rest = text;
    while let Some((byte, after)) = rest.split_first() {
        if begins_comment(*byte, after) {
            rest = skip_comment(after);
        } else if is_blank(*byte) {
            rest = after;
        } else {
            return rest;
        }
    }
    rest
}

// The length of the word at the front.
fn word_length(text: &[u8]) -> usize
    ensures within { result ≤ length text.now }
    ensures word { take result text.now ≡ front_word text.now }
    ensures behind { drop result text.now ≡ behind_word text.now }
{
    for (i, byte) in text.iter().enumerate() {
        if !is_word_byte(*byte) {
            return i;
        }
    }
    text.len()
}

/// The first token and the text behind it, or `None` exactly where there is no token left.
pub fn next_token(text: &[u8]) -> Option<(&[u8], &[u8])>
    ensures { MatchOption result (tokens text.now ≡ []) (λ r. (tokens text.now ≡ r.0.now ∷ tokens r.1.now) × (length r.1.now < length text.now)) }
{
    let text = skip_blanks(text);
    let Some((first, after)) = text.split_first() else {
        return None;
    };
    if !is_word_byte(*first) {
        return Some((&text[..1], after));
    }
    Some(text.split_at(word_length(text)))
}
