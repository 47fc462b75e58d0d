//! The words behind the program's name.
use line_streams::numbers::number;

/// What is told of the file, or done with it.
#[derive(Clone, Copy)]
pub enum What<'a> {
    /// It is read to its end first.
    Read(Purpose<'a>),
    /// What requests changed, and whether with the bytes that they brought.
    Log(bool),
    /// It is written anew, as a snapshot of what stands in it.
    Compact,
    /// Its clock is set back to this moment.
    Settle(u64),
    /// It is made, where nothing stands.
    New,
    /// What stands in this folder of the system is put into it.
    Import(&'a str),
    /// The lock with this token is ended.
    Unlock(&'a str),
    /// What stood in it at this moment is put into this folder, which is made.
    ExportAt(&'a str, u64),
    /// Its rounds are written out as they come, from the one on that ends at this byte; with true until nobody has it open to write.
    Follow(Option<u64>, bool),
    /// What comes from one that is followed is added to it.
    Take,
}

/// For what a file is read to its end.
#[derive(Clone, Copy)]
pub enum Purpose<'a> {
    /// Whether it is whole is told.
    Check,
    /// What stands in it is told, at and below this path.
    List(&'a str),
    /// Its locks are told.
    Locks,
    /// What stands in it is put into this folder of the system, which is made.
    Export(&'a str),
    /// What stood in it before it is broken is put into this file, which is made.
    Salvage(&'a str),
    /// The gate is shut of a round that it has not whole; with true nothing is asked before.
    Adopt(bool),
}

/// What the words choose.
#[derive(Clone, Copy)]
pub struct Choices<'a> {
    /// The file.
    pub path: &'a str,
    /// What is told of it, or done with it.
    pub what: What<'a>,
}

impl<'a> Choices<'a> {
    /// A path, and then `check`; or `list` with a folder or without one; or `locks`; or `unlock` with a token; or `log`, with `--bodies` or without it; or `compact`; or `settle` with a moment; or `new`; or `import` or `export` with a folder of the system, this one also with `--at` and a moment; or `salvage` with a file; or
    /// `adopt`, with `--yes` or without it; or `follow`, with a number of bytes or without one, and with `--to-end` or without it; or `take`. None where the words are other than that.
    pub fn of(words: &'a [String]) -> Option<Choices<'a>> {
        let (path, rest) = words.split_first()?;
        let what = match rest {
            [word] => alone(word.as_str())?,
            [word, next] => with(word.as_str(), next.as_str())?,
            [word, next, option] => with_both(word.as_str(), next.as_str(), option.as_str())?,
            [word, next, option, value] => {
                with_value(
                    word.as_str(),
                    next.as_str(),
                    option.as_str(),
                    value.as_str(),
                )?
            }
            _ => return None,
        };
        Some(Choices {
            path: path.as_str(),
            what,
        })
    }
}

// What one word chooses.
fn alone<'a>(word: &str) -> Option<What<'a>> {
    match word {
        "check" => Some(What::Read(Purpose::Check)),
        "list" => Some(What::Read(Purpose::List("/"))),
        "locks" => Some(What::Read(Purpose::Locks)),
        "log" => Some(What::Log(false)),
        "compact" => Some(What::Compact),
        "new" => Some(What::New),
        "adopt" => Some(What::Read(Purpose::Adopt(false))),
        "follow" => Some(What::Follow(None, false)),
        "take" => Some(What::Take),
        _ => None,
    }
}

// What a word chooses with the next one.
fn with<'a>(word: &str, next: &'a str) -> Option<What<'a>> {
    match word {
        "list" => Some(What::Read(Purpose::List(next))),
        "settle" => Some(What::Settle(number(next)?)),
        "unlock" => Some(What::Unlock(next)),
        "import" => Some(What::Import(next)),
        "export" => Some(What::Read(Purpose::Export(next))),
        "salvage" => Some(What::Read(Purpose::Salvage(next))),
        "follow" if next != "--to-end" => Some(What::Follow(Some(number(next)?), false)),
        _ => with_option(word, next),
    }
}

// What a word chooses with its option.
fn with_option<'a>(word: &str, option: &str) -> Option<What<'a>> {
    match (word, option) {
        ("log", "--bodies") => Some(What::Log(true)),
        ("adopt", "--yes") => Some(What::Read(Purpose::Adopt(true))),
        ("follow", "--to-end") => Some(What::Follow(None, true)),
        _ => None,
    }
}

// What a word chooses with the next one and an option.
fn with_both<'a>(word: &str, next: &str, option: &str) -> Option<What<'a>> {
    match (word, option) {
        ("follow", "--to-end") => Some(What::Follow(Some(number(next)?), true)),
        _ => None,
    }
}

// What a word chooses with the next one and an option, which has a value.
fn with_value<'a>(word: &str, next: &'a str, option: &str, value: &str) -> Option<What<'a>> {
    match (word, option) {
        ("export", "--at") => Some(What::ExportAt(next, number(value)?)),
        _ => None,
    }
}
