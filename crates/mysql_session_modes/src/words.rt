//! Words that stand in a text, in any case.
//!
//! Each search looks at one byte of the text, goes on by a step, and looks at the next one. Of a
//! long word it looks at few bytes.

ghost use Rattle.std.specs.Prelude.{◌≡◌, ◌<◌, codes, length, map, true};
ghost use Rattle.std.specs.Str.{str_eq_ignore_ascii_case};
ghost use Rattle.mysql_bytes.specs.Modes.{is_one_of};
ghost use Rattle.mysql_session_modes.specs.Texts as texts;
ghost use Rattle.mysql_session_modes.specs.Steps.{are_short, are_within};

// Steps of the word `statement`: by a byte's low five bits, which are those of a letter in each
// case, how far the last such letter stands from the word's end.
static TO_STATEMENT: [u8; 32] = [
    9, 6, 9, 9, 9, 2, 9, 9, 9, 9, 9, 9, 9, 3, 1, 9, //
    9, 9, 9, 8, 0, 9, 9, 9, 9, 9, 9, 9, 9, 9, 9, 9,
];

// Of words that are looked for in few texts: each byte is looked at.
static TO_EACH: [u8; 32] = [0; 32];

/// The word `STATEMENT` stands somewhere in the text.
pub fn has_statement(text: &[u8]) -> bool
    ensures { result ≡ texts.has_word (codes "statement") text.now }
{
    has_word(b"statement", &TO_STATEMENT, text)
}

/// A word stands somewhere in the text, which is given in small letters.
pub fn has_rare_word(word: &[u8], text: &[u8]) -> bool
    requires { 0 < length word.now }
    ensures { result ≡ texts.has_word word.now text.now }
{
    has_word(word, &TO_EACH, text)
}

fn same_word(word: &[u8], other: &[u8]) -> bool
    ensures { result ≡ str_eq_ignore_ascii_case word.now other.now }
{
    word.eq_ignore_ascii_case(other)
}

/// A word is one of some, with its letters in any case.
pub fn is_listed(word: &[u8], words: &[&[u8]]) -> bool
    ensures { result ≡ is_one_of (map (λ listed. listed.now) words.now) word.now }
{
    words.iter().any(|listed| same_word(word, listed))
}

// The word stands somewhere in the text. It is given in small letters.
//
// No step is longer than the way from a letter with the byte's low five bits to the word's end.
#[inline(always)]
fn has_word(word: &[u8], steps: &[u8; 32], text: &[u8]) -> bool
    requires some { 0 < length word.now }
    requires within { are_within steps.now word.now ≡ true }
    requires short { are_short steps.now word.now ≡ true }
    ensures { result ≡ texts.has_word word.now text.now }
{
    let last = word.len() - 1;
    let mut at = 0;
    while at + last < text.len() {
        let step = steps[(text[at + last] % 32) as usize];
        if step > 0 {
            at += step as usize;
        } else if is_word_at(word, &text[at..]) {
            return true;
        } else {
            at += 1;
        }
    }
    false
}

/// The text goes on with the word, which is given in small letters.
#[inline(always)]
pub fn is_word_at(word: &[u8], text: &[u8]) -> bool
    ensures { result ≡ texts.is_word_at word.now text.now }
{
    let mut letters = word;
    let mut rest = text;
    while let Some((letter, further)) = letters.split_first() {
        let Some((byte, behind)) = rest.split_first() else {
            return false;
        };
        if byte.to_ascii_lowercase() != *letter {
            return false;
        }
        letters = further;
        rest = behind;
    }
    true
}
