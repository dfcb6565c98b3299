//! The words of calls that are made again.

use std::alloc::{AllocError, Global};

/// The texts of words.
pub(crate) fn texts_of(alloc: Global, words: &[String]) -> Result<Vec<&str>, AllocError> {
    let mut texts = Vec::new(alloc);
    for word in words {
        texts.push(word.as_str())?;
    }
    Ok(texts)
}

/// Whether one of the words begins with this text.
pub(crate) fn have(words: &[&str], beginning: &str) -> bool {
    words.iter().any(|word| word.starts_with(beginning))
}

/// Whether this is one of the words.
pub(crate) fn have_word(words: &[&str], wanted: &str) -> bool {
    words.iter().any(|word| *word == wanted)
}

/// The call of another command, with an option if there is one, on what these words name.
pub(crate) fn other_call<'a>(
    alloc: Global,
    command: &'a str,
    option: Option<&'a str>,
    words: &[&'a str],
) -> Result<Vec<&'a str>, AllocError> {
    let mut call = Vec::new(alloc);
    call.push("tardis")?;
    call.push(command)?;
    if let Some(option) = option {
        call.push(option)?;
    }
    for word in words.iter().skip(2) {
        call.push(*word)?;
    }
    Ok(call)
}
