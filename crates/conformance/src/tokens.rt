//! Tokens as words.

use crate::rows::DIFFERS;
use std::alloc::{AllocError, Global};
use tests_support::rows::{Token, Trouble};

/// Writes the words of a field, each behind a space, and a bar.
pub fn put_field(words: &mut String, field: &[Token<'_>]) -> Result<(), AllocError> {
    for token in field {
        match token {
            Token::Word(word) => write!(words, " {word}")?,
            Token::Text(text) => write!(words, " \"{text}\"")?,
        }
    }
    words.push_str(" |")
}

/// Writes the words of fields.
pub fn put_fields(words: &mut String, fields: &[&[Token<'_>]]) -> Result<(), AllocError> {
    for field in fields {
        put_field(words, field)?;
    }
    Ok(())
}

/// Compares words with fields. They say where memory was refused.
pub fn check_words(alloc: Global, words: &str, fields: &[&[Token<'_>]]) -> Result<(), Trouble> {
    let mut wanted = String::new(alloc);
    put_fields(&mut wanted, fields)?;
    if wanted.as_str() == words {
        Ok(())
    } else if words.contains("Memory") {
        Err(Trouble::Memory)
    } else {
        Err(DIFFERS)
    }
}
