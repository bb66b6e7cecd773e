// The words of a script file: how a text is cut, what a name and a number are.
ghost use Rattle.std.specs.Prelude.{◌≡◌, ◌+◌, true, false, ◌&&◌, [], ◌∷◌, length, MatchOption, ◌==◌, nat_le};
ghost use Rattle.std.specs.List.{list_all, position};
ghost use Rattle.reader.specs.Format.{pieces, digit, name_byte, is_tail, is_name, in_range, value, are_names, is_calls};

pub const LINE_END: u8 = b'\n';

pub const SPACE: u8 = b' ';

pub const PLUS: u8 = b'+';

// A calls word that names nothing.
pub const NO_CALLS: &[u8] = b"-";

// The place of the first `sep`.
fn find(text: &[u8], sep: u8) -> Option<usize>
    ensures { result ≡ position (λ b. b == sep) text.now }
{
    text.iter().position(|b| *b == sep)
}

// The first piece, and what is behind its separator; nothing where the text is one piece.
pub(crate) fn cut(text: &[u8], sep: u8) -> Option<(&[u8], &[u8])>
    ensures { MatchOption result (pieces sep text.now ≡ text.now ∷ [])
        (λ p. (pieces sep text.now ≡ p.0.now ∷ pieces sep p.1.now)
        × (length p.0.now + 1 + length p.1.now ≡ length text.now)) }
{
    let end = find(text, sep)?;
    Some((&text[..end], &text[end + 1..]))
}

fn is_name_byte(b: u8) -> bool
    ensures { result ≡ name_byte b }
{
    b.is_ascii_uppercase() || b.is_ascii_digit()
}

fn all_name_bytes(bytes: &[u8]) -> bool
    ensures { result ≡ list_all name_byte bytes.now }
{
    bytes.iter().all(|b| is_name_byte(*b))
}

// Whether a letter and these bytes make a name.
fn tail_ok(rest: &[u8]) -> bool
    ensures { result ≡ is_tail rest.now }
{
    rest.len() <= 11 && all_name_bytes(rest)
}

// Whether a word is the name of a routine.
pub(crate) fn name_ok(word: &[u8]) -> bool
    ensures { result ≡ is_name word.now }
{
    match word {
        [] => false,
        [first, rest @ ..] => first.is_ascii_uppercase() && tail_ok(rest),
    }
}

// The number that digits write, where it is at most `most`. However many digits there are, the
// value stays below ten times the bound and ten.
// Kept: the library's `parse` reads text, not bytes, and takes a sign.
fn digits(word: &[u8], most: u16) -> Option<u16>
    ensures { MatchOption result ((list_all digit word.now && nat_le (value word.now) most) ≡ false)
        (λ n. ((list_all digit word.now && nat_le (value word.now) most) ≡ true)
        × (n ≡ value word.now)) }
{
    let mut value = 0;
    for b in word {
        if !b.is_ascii_digit() {
            return None;
        }
        value = value * 10 + u32::from(*b - b'0');
        if value > u32::from(most) {
            return None;
        }
    }
    Some(value as u16)
}

// The number that a word writes, where it is well formed and at most `most`.
pub(crate) fn number(word: &[u8], most: u16) -> Option<u16>
    ensures { MatchOption result (in_range most word.now ≡ false)
        (λ n. (in_range most word.now ≡ true) × (n ≡ value word.now)) }
{
    match word {
        [] | [b'0', _, ..] => None,
        _ => digits(word, most),
    }
}

// Whether a word has at most four pieces. It is read no further than to the end of the fifth.
fn few_calls(word: &[u8]) -> bool
    ensures { result ≡ nat_le (length (pieces PLUS word.now)) 4 }
{
    word.split(|b| *b == PLUS).take(5).count() <= 4
}

fn all_names(word: &[u8]) -> bool
    ensures { result ≡ list_all is_name (pieces PLUS word.now) }
{
    word.split(|b| *b == PLUS).all(name_ok)
}

// Whether a word is a lone minus sign, or one to four names joined by plus signs.
pub(crate) fn calls_ok(word: &[u8]) -> bool
    ensures { result ≡ is_calls word.now }
{
    word == NO_CALLS || few_calls(word) && all_names(word)
}
