//! Texts of what is wrong with words.

use std::alloc::{AllocError, Global};

/// Returns the parts as one text.
pub fn joined(alloc: Global, parts: &[&str]) -> Result<String, AllocError> {
    let mut text = String::new(alloc);
    for part in parts {
        text.push_str(*part)?;
    }
    Ok(text)
}

/// Returns that this word isn't what an option takes, and what that is.
pub fn quoted(alloc: Global, option: &str, word: &str, right: &str) -> Result<String, AllocError> {
    joined(alloc, &["nbbo: ", option, "'", word, "' ", right, "\n"])
}
