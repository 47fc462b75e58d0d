//! The words behind the program's name.
use http_header::{HeaderName, HeaderNameError};
use std::alloc::{AllocError, Global};
use std::num::ParseIntError;

// So many bytes are handed out to a client beyond what it has taken, if nothing else is said.
const WINDOW: u64 = 256 * 1024;

// All answers that wait have so many bytes beside the stores', and all requests that have not come whole, if nothing else is said.
const BOUND: u64 = 256 * 1024 * 1024;

// A lease has so many seconds at most.
const LONGEST_LEASE: u64 = 60;

// The realm of a login, if nothing else is said.
const REALM: &str = "davserve";

// A file of so many bytes is not compacted at the start, if nothing else is said.
const COMPACT_OVER: u64 = 64 * 1024 * 1024;

// So many hundredths of a file may be of no use before it is compacted at the start, if nothing else is said.
const COMPACT_USELESS: u8 = 50;

// A body may have so many bytes, if nothing else is said.
const MAX_BODY: usize = 64 * 1024 * 1024;

/// When what is changed is on the disk (own).
#[derive(Clone, Copy, PartialEq, Eq)]
pub enum Sync {
    /// Before an answer tells of it.
    Always,
    /// At the next tick, which comes once a second.
    Second,
}

/// When the file of the stores is compacted at the start (own).
#[derive(Clone, Copy)]
pub struct Compacting {
    /// Only where it has more bytes than that.
    pub over: u64,
    /// Only where more than so many hundredths of it are of no use any more.
    pub useless: u8,
}

/// Why the words choose nothing.
#[derive(Drop)]
pub enum Unread {
    /// They aren't of the program's form.
    Usage,
    /// This word stands where an option does, and is none.
    Unknown(String),
    /// The option of this name has no value, or one that it can't have.
    Value(String),
    /// There is no memory for them.
    OutOfMemory,
}

impl From<AllocError> for Unread {
    fn from(_error: AllocError) -> Self {
        Unread::OutOfMemory
    }
}

impl From<HeaderNameError> for Unread {
    fn from(error: HeaderNameError) -> Self {
        match error {
            HeaderNameError::Invalid => Unread::Usage,
            HeaderNameError::OutOfMemory => Unread::OutOfMemory,
        }
    }
}

impl From<ParseIntError> for Unread {
    fn from(_error: ParseIntError) -> Self {
        Unread::Usage
    }
}

/// In which form a log has its lines.
#[derive(Clone, Copy, PartialEq, Eq)]
pub enum LogFormat {
    /// The common log format.
    Common,
    /// The combined log format.
    Combined,
    /// An object of JSON.
    Json,
}

/// What the words choose.
#[derive(Drop)]
pub struct Choices {
    /// Whether clients come by `https`, by a proxy in front.
    pub https: bool,
    /// The path that URLs stand behind; empty for none.
    pub prefix: String,
    /// The header by which a proxy in front names the principal.
    pub user_header: Option<HeaderName>,
    /// The greatest timeout that a lock gets, in seconds.
    pub longest_timeout: Option<u32>,
    /// Whether a PROPFIND all the way down is refused.
    pub finite_depth: bool,
    /// A request's body has so many bytes at most.
    pub max_body: usize,
    /// So many bytes are handed out to a client beyond what it has taken.
    pub window: u64,
    /// The answers that wait have so many bytes, beside those of the stores and of one answer.
    pub waiting: u64,
    /// The requests that have not come whole have so many bytes, and never fewer than a body may have, beside a window for each connection.
    pub unfinished: u64,
    /// The seed of the tokens, for tests; else they come from the system's randomness.
    pub seed: Option<u64>,
    /// The moment at which the clock stands, for tests, in nanoseconds since 1970, until a frame tells another; else it is the system's.
    pub clock: Option<u64>,
    /// Whether there is one connection, without frames.
    pub one: bool,
    /// Whether nothing may be changed.
    pub read_only: bool,
    /// The file that has a line for each request, `-` for standard error; without one there are no lines.
    pub log: Option<String>,
    /// The form of those lines.
    pub log_format: LogFormat,
    /// The file that keeps the stores; without one they are in memory alone.
    pub store: Option<String>,
    /// Whether that file has to be there: none is made then.
    pub existing: bool,
    /// When what that file keeps began, in nanoseconds since 1970, where it has to be the file of one store and of no other; it has to be there then.
    pub began: Option<u64>,
    /// For how many seconds nobody else may serve that file behind the last touch, where machines share it: 1 to 60.
    pub lease: Option<u64>,
    /// When that file has what is changed.
    pub sync: Sync,
    /// When that file is compacted at the start.
    pub compacting: Compacting,
    /// Whether the users who may log in come in the first frame.
    pub login: bool,
    /// The file of the users who may log in, where they come from one; without one, and without `login`, nobody logs in.
    pub users: Option<String>,
    /// The field by which a proxy tells the address of a request's client; without one it is the connection's.
    pub address_header: Option<HeaderName>,
    /// The realm that clients are told to log in to.
    pub realm: String,
}

impl Choices {
    /// Perhaps `--one` or `--login`, and behind it `--read-only` and `--existing`, which have no value, and options, each with its value, in any order; of one that comes twice the last counts. `OutOfMemory`
    /// where there is no memory for it. `Unknown` where a word is none of these, `Value` where a value is missing or isn't one; and `Usage` where stores that a file keeps meet `--one` or a seed, or nothing is kept and it is to be there already, to have begun at a moment, to have a lease or to be synced each second, users `--one` or
    /// a header that names the principal, a file of users `--login`, `--read-only` or a log `--one`, or a form of lines meets no log.
    pub fn of(alloc: Global, words: &[String]) -> Result<Choices, Unread> {
        let mut choices = Choices::unsaid(alloc)?;
        choices.read(alloc, words)?;
        Ok(choices)
    }

    // Those where nothing is said.
    fn unsaid(alloc: Global) -> Result<Choices, AllocError> {
        let realm = String::from_str(alloc, REALM)?;
        Ok(Choices {
            https: false,
            prefix: String::new(alloc),
            user_header: None,
            longest_timeout: None,
            finite_depth: false,
            max_body: MAX_BODY,
            window: WINDOW,
            waiting: BOUND,
            unfinished: BOUND,
            seed: None,
            clock: None,
            one: false,
            read_only: false,
            log: None,
            log_format: LogFormat::Common,
            store: None,
            existing: false,
            began: None,
            lease: None,
            sync: Sync::Always,
            compacting: Compacting {
                over: COMPACT_OVER,
                useless: COMPACT_USELESS,
            },
            login: false,
            users: None,
            address_header: None,
            realm,
        })
    }

    /// Whether users log in.
    pub fn logs_in(&self) -> bool {
        self.login || self.users.is_some()
    }

    fn read(&mut self, alloc: Global, words: &[String]) -> Result<(), Unread> {
        match words {
            [first, rest @ ..] if first.as_str() == "--one" => {
                self.one = true;
                self.set_all(alloc, rest)?;
            }
            [first, rest @ ..] if first.as_str() == "--login" => {
                self.login = true;
                self.set_all(alloc, rest)?;
            }
            _ => self.set_all(alloc, words)?,
        }
        if self.go_together() {
            Ok(())
        } else {
            Err(Unread::Usage)
        }
    }

    // Each option with its value.
    fn set_all(&mut self, alloc: Global, words: &[String]) -> Result<(), Unread> {
        let mut name = None;
        for word in words {
            let word = word.as_str();
            match name {
                Some(before) => {
                    self.set(alloc, before, word)?;
                    name = None;
                }
                None if word == "--read-only" => self.read_only = true,
                None if word == "--existing" => self.existing = true,
                None => name = Some(word),
            }
        }
        match name {
            Some(last) if last.starts_with("--") => Err(Unread::Value(String::from_str(
                alloc, last,
            )?)),
            Some(last) => Err(Unread::Unknown(String::from_str(alloc, last)?)),
            None => Ok(()),
        }
    }

    // Sets the option of a name. `Unknown` where there is none, `Value` where it can't have the value.
    fn set(&mut self, alloc: Global, name: &str, value: &str) -> Result<(), Unread> {
        match self.set_known(alloc, name, value) {
            Ok(true) => Ok(()),
            Ok(false) => Err(Unread::Unknown(String::from_str(alloc, name)?)),
            Err(Unread::Usage) => Err(Unread::Value(String::from_str(alloc, name)?)),
            Err(error) => Err(error),
        }
    }

    // Whether the name is that of an option; its value is set then.
    fn set_known(&mut self, alloc: Global, name: &str, value: &str) -> Result<bool, Unread> {
        Ok(
            self.set_address(alloc, name, value)?
                || self.set_limit(name, value)?
                || self.set_store(alloc, name, value)?
                || self.set_client(alloc, name, value)?
                || self.set_test(name, value)?,
        )
    }

    // Whether the name is that of an option for what URLs and their fields have; its value is set then.
    fn set_address(&mut self, alloc: Global, name: &str, value: &str) -> Result<bool, Unread> {
        if name == "--prefix" {
            self.prefix = String::from_str(alloc, prefix_of(value)?)?;
        } else if name == "--scheme" {
            self.https = is_second("http", "https", value)?;
        } else if name == "--user-header" {
            self.user_header = Some(header_of(alloc, value)?);
        } else if name == "--address-header" {
            self.address_header = Some(header_of(alloc, value)?);
        } else {
            return Ok(false);
        }
        Ok(true)
    }

    // The same of an option for how much may be asked.
    fn set_limit(&mut self, name: &str, value: &str) -> Result<bool, Unread> {
        if name == "--propfind-depth" {
            self.finite_depth = is_second("infinite", "finite", value)?;
        } else if name == "--longest-timeout" {
            self.longest_timeout = Some(value.parse()?);
        } else if name == "--max-body" {
            self.max_body = length_of(value)?;
        } else if name == "--window" {
            self.window = window_of(value)?;
        } else if name == "--waiting" {
            self.waiting = size_of(value)?;
        } else if name == "--unfinished" {
            self.unfinished = size_of(value)?;
        } else {
            return Ok(false);
        }
        Ok(true)
    }

    // The same of an option for the file that keeps the stores.
    fn set_store(&mut self, alloc: Global, name: &str, value: &str) -> Result<bool, Unread> {
        if name == "--store" {
            self.store = Some(file_of(alloc, value)?);
        } else if name == "--sync" {
            self.sync = sync_of(value)?;
        } else if name == "--began" {
            self.began = Some(value.parse()?);
        } else if name == "--lease" {
            self.lease = Some(lease_of(value)?);
        } else if name == "--compact-over" {
            self.compacting.over = size_of(value)?;
        } else if name == "--compact-useless" {
            self.compacting.useless = share_of(value)?;
        } else {
            return Ok(false);
        }
        Ok(true)
    }

    // The same of an option for who asks, and what is told of it.
    fn set_client(&mut self, alloc: Global, name: &str, value: &str) -> Result<bool, Unread> {
        if name == "--log" {
            self.log = Some(file_of(alloc, value)?);
        } else if name == "--log-format" {
            self.log_format = log_format_of(value)?;
        } else if name == "--users" {
            self.users = Some(file_of(alloc, value)?);
        } else if name == "--realm" {
            self.realm = String::from_str(alloc, value)?;
        } else {
            return Ok(false);
        }
        Ok(true)
    }

    // The same of an option for tests.
    fn set_test(&mut self, name: &str, value: &str) -> Result<bool, Unread> {
        if name == "--seed" {
            self.seed = Some(value.parse()?);
        } else if name == "--clock" {
            self.clock = Some(clock_of(value)?);
        } else {
            return Ok(false);
        }
        Ok(true)
    }

    // Whether something is said of a file that keeps the stores.
    fn says_how_kept(&self) -> bool {
        self.existing || self.began.is_some() || self.lease.is_some() || self.sync == Sync::Second
    }

    // Whether what is chosen goes together. A server behind a login is told by a field of its own who logged in, and by no other.
    fn go_together(&self) -> bool {
        if self.store.is_some() && (self.one || self.seed.is_some()) {
            return false;
        }
        if self.store.is_none() && self.says_how_kept() {
            return false;
        }
        if self.one && (self.read_only || self.log.is_some() || self.logs_in()) {
            return false;
        }
        if self.log.is_none() && self.log_format != LogFormat::Common {
            return false;
        }
        let is_told = self.user_header.is_some() || (self.login && self.users.is_some());
        !(self.logs_in() && is_told)
    }
}

// The seconds of a lease that a word names. `Usage` where it names none, or 0, or more than a lease has.
fn lease_of(word: &str) -> Result<u64, Unread> {
    match word.parse()? {
        seconds if seconds == 0 || seconds > LONGEST_LEASE => Err(Unread::Usage),
        seconds => Ok(seconds),
    }
}

// Whether a word is the second of two, and not the first. `Usage` where it is neither.
fn is_second(first: &str, second: &str, word: &str) -> Result<bool, Unread> {
    if word == second {
        Ok(true)
    } else if word == first {
        Ok(false)
    } else {
        Err(Unread::Usage)
    }
}

// The form of the lines of a log, as a word names it.
fn log_format_of(word: &str) -> Result<LogFormat, Unread> {
    match word {
        "common" => Ok(LogFormat::Common),
        "combined" => Ok(LogFormat::Combined),
        "json" => Ok(LogFormat::Json),
        _ => Err(Unread::Usage),
    }
}

// When changes are on the disk, as a word names it.
fn sync_of(word: &str) -> Result<Sync, Unread> {
    if is_second("always", "second", word)? {
        Ok(Sync::Second)
    } else {
        Ok(Sync::Always)
    }
}

// The moment that a word names, before the first that a frame tells.
fn clock_of(word: &str) -> Result<u64, Unread> {
    if word == "frames" {
        Ok(0)
    } else {
        Ok(word.parse()?)
    }
}

// The header that a word names.
fn header_of(alloc: Global, word: &str) -> Result<HeaderName, Unread> {
    Ok(HeaderName::from_bytes(alloc, word.as_bytes())?)
}

// The window that a word names. `Usage` where it is none, or 0, through which nothing would go.
fn window_of(word: &str) -> Result<u64, Unread> {
    match word.parse()? {
        0 => Err(Unread::Usage),
        window => Ok(window),
    }
}

// The bytes that a word names: a number, with `K`, `M` or `G` behind it for so many times 1,024, 1,024 squared or cubed. `Usage` where it is none, or too large.
fn size_of(word: &str) -> Result<u64, Unread> {
    if let Some(digits) = word.strip_suffix('K') {
        return times(digits, 1024);
    }
    if let Some(digits) = word.strip_suffix('M') {
        return times(digits, 1024 * 1024);
    }
    if let Some(digits) = word.strip_suffix('G') {
        return times(digits, 1024 * 1024 * 1024);
    }
    Ok(word.parse()?)
}

fn times(digits: &str, unit: u64) -> Result<u64, Unread> {
    let count: u64 = digits.parse()?;
    match count.checked_mul(unit) {
        Some(bytes) => Ok(bytes),
        None => Err(Unread::Usage),
    }
}

// The same of what is kept in memory at once.
fn length_of(word: &str) -> Result<usize, Unread> {
    match usize::try_from(size_of(word)?) {
        Ok(length) => Ok(length),
        Err(_) => Err(Unread::Usage),
    }
}

// The hundredths that a word names. `Usage` where it names none, or more than a hundred.
fn share_of(word: &str) -> Result<u8, Unread> {
    match word.parse()? {
        share if share > 100 => Err(Unread::Usage),
        share => Ok(share),
    }
}

// The file that a word names. `Usage` where it names none.
fn file_of(alloc: Global, word: &str) -> Result<String, Unread> {
    if word.is_empty() {
        Err(Unread::Usage)
    } else {
        Ok(String::from_str(alloc, word)?)
    }
}

// The path that a word names as the prefix, without the slashes at its end. Nothing is left of `/`
// and of an empty word, which is no prefix. `Usage` where any other word begins without a slash.
fn prefix_of(word: &str) -> Result<&str, Unread> {
    if word.is_empty() || word.starts_with('/') {
        Ok(word.trim_end_matches('/'))
    } else {
        Err(Unread::Usage)
    }
}
