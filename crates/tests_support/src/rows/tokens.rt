//! A line as tokens, and tokens as words.

use std::alloc::{AllocError, Global};

/// What a line consists of.
#[derive(Clone, Copy)]
pub enum Token<'a> {
    /// What stands between spaces. `|` alone stands between two fields.
    Word(&'a str),
    /// What stands between double quotes.
    Text(&'a str),
}

/// The names that a file gives to tokens.
pub type Names<'a> = Vec<(&'a str, Vec<Token<'a>>)>;

/// Puts a word, or the tokens that it names.
fn put_word<'a>(
    names: &Names<'a>,
    word: &'a str,
    tokens: &mut Vec<Token<'a>>,
) -> Result<(), AllocError> {
    for (name, meaning) in names {
        if *name == word {
            return tokens.extend_from_slice(meaning);
        }
    }
    tokens.push(Token::Word(word))?;
    Ok(())
}

/// Puts the tokens of a part of a line that stands between two quotes or before or behind all.
fn put_part<'a>(
    names: &Names<'a>,
    is_text: bool,
    part: &'a str,
    tokens: &mut Vec<Token<'a>>,
) -> Result<(), AllocError> {
    if is_text {
        tokens.push(Token::Text(part))?;
        return Ok(());
    }
    for word in part.split_whitespace() {
        put_word(names, word, tokens)?;
    }
    Ok(())
}

/// The tokens of a line.
pub fn tokens_of<'a>(
    alloc: Global,
    line: &'a str,
    names: &Names<'a>,
) -> Result<Vec<Token<'a>>, AllocError> {
    let mut tokens = Vec::new(alloc);
    for (number, part) in line.split('"').enumerate() {
        put_part(names, number % 2 == 1, part, &mut tokens)?;
    }
    Ok(tokens)
}
