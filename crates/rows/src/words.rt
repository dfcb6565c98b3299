//! The words of calls.

use std::alloc::{AllocError, Global};

/// What stands in a line before a range of numbers, the first and the last number, and what stands after them.
fn range_in(line: &str) -> Option<(&str, u64, u64, &str)> {
    let (before, rest) = line.split_once('{')?;
    let (range, after) = rest.split_once('}')?;
    let (first, last) = range.split_once("..")?;
    Some((before, first.parse().ok()?, last.parse().ok()?, after))
}

/// The calls that a line stands for: if it has `{A..B}`, one for each number from `A` to `B`. Err if memory was refused.
pub fn calls_of(alloc: Global, line: &str) -> Result<Vec<String>, AllocError> {
    let mut calls = Vec::new(alloc);
    match range_in(line) {
        Some((before, first, last, after)) => {
            for number in first..last.saturating_add(1) {
                calls.push(format!(in alloc; "{before}{number}{after}")?)?;
            }
        }
        None => calls.push(String::from_str(alloc, line)?)?,
    }
    Ok(calls)
}

/// The first and the last of `A...B`.
fn ends_of(word: &str) -> Option<(u64, u64)> {
    let (first, last) = word.split_once("...")?;
    Some((first.parse().ok()?, last.parse().ok()?))
}

/// The words of a call; `A...B` stands for all numbers from `A` to `B`. Err if memory was refused.
pub fn words_of(alloc: Global, line: &str) -> Result<Vec<String>, AllocError> {
    let mut words = Vec::new(alloc);
    for word in line.split_whitespace() {
        match ends_of(word) {
            Some((first, last)) => {
                for number in first..last.saturating_add(1) {
                    words.push(format!(in alloc; "{number}")?)?;
                }
            }
            None => words.push(String::from_str(alloc, word)?)?,
        }
    }
    Ok(words)
}
