//! The words behind the program's name.
use line_streams::numbers::number;
use std::alloc::{AllocError, Global};

/// Why the words choose nothing.
#[derive(Clone, Copy)]
pub enum Unread {
    /// They aren't of the program's form.
    Usage,
    /// There is no memory for them.
    OutOfMemory,
}

impl From<AllocError> for Unread {
    fn from(_error: AllocError) -> Self {
        Unread::OutOfMemory
    }
}

/// What the words choose.
#[derive(Drop)]
pub struct Choices {
    /// The file of the journal; none where a journal is read from standard input.
    pub path: Option<String>,
    /// Whether each record is told that the file has.
    pub list: bool,
    /// The key of a new file, for tests; else it is drawn at random.
    pub key: Option<u64>,
    /// The moment at which a new file begins, for tests, in nanoseconds since 1970; else it is the system's.
    pub began: Option<u64>,
}

impl Choices {
    /// `--read`; or options, and then a path. `Usage` where the words are other than that; `OutOfMemory` where there is no memory for the path.
    pub fn of(alloc: Global, words: &[String]) -> Result<Choices, Unread> {
        let mut choices = Choices {
            path: None,
            list: false,
            key: None,
            began: None,
        };
        if let [word] = words
            && word.as_str() == "--read"
        {
            return Ok(choices);
        }
        let Some((path, options)) = words.split_last() else {
            return Err(Unread::Usage);
        };
        if path.as_str().starts_with("--") || path.is_empty() {
            return Err(Unread::Usage);
        }
        choices.set_all(options)?;
        choices.path = Some(String::from_str(alloc, path.as_str())?);
        Ok(choices)
    }

    // The options before the path.
    fn set_all(&mut self, options: &[String]) -> Result<(), Unread> {
        let mut name = None;
        for word in options {
            match name {
                None if word.as_str() == "--list" => self.list = true,
                None => name = Some(word.as_str()),
                Some(before) => {
                    self.set(before, word.as_str())?;
                    name = None;
                }
            }
        }
        match name {
            None => Ok(()),
            Some(_) => Err(Unread::Usage),
        }
    }

    // An option with its value.
    fn set(&mut self, name: &str, value: &str) -> Result<(), Unread> {
        let Some(value) = number(value) else {
            return Err(Unread::Usage);
        };
        match name {
            "--key" => self.key = Some(value),
            "--began" => self.began = Some(value),
            _ => return Err(Unread::Usage),
        }
        Ok(())
    }
}
