//! The words of a row.
use std::alloc::{AllocError, Global};
use std::fmt::Display;
use std::test::Fail;

/// A word, and what stands behind it and a blank; `""` for what is missing.
pub(crate) fn first_word(words: &str) -> (&str, &str) {
    words.split_once(' ').unwrap_or((words, ""))
}

/// What is asked, and the answer behind ` = `.
pub(crate) fn row_of(row: &str) -> Result<(&str, &str), Fail> {
    Ok(row.split_once(" = ").ok_or("no answer")?)
}

/// An answer, or the name of a refusal.
pub(crate) fn told<T: Display + Drop, E: Display + Drop>(
    alloc: Global,
    answer: Result<T, E>,
) -> Result<String, AllocError> {
    match answer {
        Ok(answer) => format!(in alloc; "{answer}"),
        Err(error) => format!(in alloc; "{error}"),
    }
}
