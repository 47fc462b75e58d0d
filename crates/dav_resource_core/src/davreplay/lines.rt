//! The form of a line.
ghost use Rattle.std.specs.Prelude.{◌≡◌, List, [], ◌∷◌, Ok, Some, None, map, option_map, string_bytes, IfOk};
ghost use Rattle.std.specs.List.{list_all, slice_split};
ghost use Rattle.dav_path_core.specs.Segments.{segments};
ghost use Rattle.dav_files_core.specs.Properties.{property_of};
ghost use Rattle.dav_headers_core.specs.CommaPieces.{is_comma};
ghost use Rattle.line_streams.specs.Numerals.{numeral};
ghost use Rattle.dav_resource_core.specs.RequestLines.{words, depth_of_word, scope_of_word, timeout_word, place_word, number_or, head_form, text_word, hex_word, is_count, is_label, labels_word, put_form, write_form, read_form, move_form, copy_form, set_form, delete_form, props_form, prop_form, lock_form, check_form, unlock_form, refresh_form, form_alone, has_two_paths, form_of_ends, form_with_one, form_with_two, form_with_three};
ghost use Rattle.dav_guarded_core.specs.Requests.Command.{PatchProps};
ghost use Rattle.dav_resource_core.specs.Private.LineReading.{exactly, Gives, IsWithOne, CommandIs, both, command_reading, IsReadCommand, IsReadOrRoom, IsAskedOrRoom, line_request, said_head, WordsAre, LineIs};

use super::labels::Labels;
use bytes::Bytes;
use dav_files_core::fs::{DavProp, Moment};
use dav_guarded_core::guarded::{Command, Request};
use dav_path_core::davpath::{DavPath, ParseError};
use line_streams::numbers::{is_digits, number};
use std::alloc::{AllocError, AllocFailed, Global};

/// Why a line's words give no request.
#[derive(Drop)]
pub(super) enum Unread {
    /// Its form is wrong.
    Malformed,
    /// Its form is right, but a path isn't read: of two, the first such.
    BadPath(ParseError),
    /// There is no memory for them.
    OutOfMemory,
}

impl From<ParseError> for Unread {
    ghost use Rattle.dav_resource_core.specs.Private.LineReading.{unread_by};

    ghost from_gives = { λ e r. r ≡ unread_by e };

    fn from(error: ParseError) -> Unread {
        match error {
            ParseError::OutOfMemory => Unread::OutOfMemory,
            error => Unread::BadPath(error),
        }
    }
}

impl From<AllocError> for Unread {
    ghost use Rattle.dav_resource_core.specs.declared.davreplay.lines.Unread.TheVariants.{OutOfMemory};

    ghost from_gives = { λ _ e. e ≡ OutOfMemory };

    fn from(_: AllocError) -> Unread {
        Unread::OutOfMemory
    }
}

impl<T: Drop> From<AllocFailed<T>> for Unread {
    ghost use Rattle.dav_resource_core.specs.declared.davreplay.lines.Unread.TheVariants.{OutOfMemory};

    ghost from_gives = { λ _ e. e ≡ OutOfMemory };

    fn from(_: AllocFailed<T>) -> Unread {
        Unread::OutOfMemory
    }
}

/// The request of a line, `MOMENT PRINCIPAL LABELS COMMAND PATH ARGS`, its labels replaced by the tokens that they stand for; none
/// where it has no words. Its words are separated by spaces; it is malformed where it isn't UTF-8.
pub(super) fn request_of(
    alloc: Global,
    granted: &Labels,
    line: &[u8],
) -> Result<Option<Request>, Unread>
    ensures { LineIs granted.now line.now result }
{
    let Ok(text) = str::from_utf8(line) else {
        return Err(Unread::Malformed);
    };
    let words = words_of(alloc, text)?;
    request_of_words(alloc, granted, &words)
}

// The request of some words; none without any.
fn request_of_words(
    alloc: Global,
    granted: &Labels,
    words: &[&str],
) -> Result<Option<Request>, Unread>
    ensures { WordsAre granted.now (map (λ word. word.now) words.now) result }
{
    match words {
        [] => Ok(None),
        [moment, principal, labels, command, path, args @ ..] => {
            let path = DavPath::new(alloc, path);
            let command = command_of(alloc, granted, command, path, args);
            with_head(alloc, granted, moment, principal, labels, command)
        }
        _ => Err(Unread::Malformed),
    }
}

// What stands in front of a command.
#[derive(Drop)]
struct Head {
    now: Moment,
    principal: Option<String>,
    tokens: Vec<String>,
}

// A command, at its moment, for its principal, under the tokens of its labels.
fn with_head(
    alloc: Global,
    granted: &Labels,
    moment: &str,
    principal: &str,
    labels: &str,
    command: Result<Command, Unread>,
) -> Result<Option<Request>, Unread>
    ensures { IsAskedOrRoom result (line_request (head_form granted.now moment.now principal.now labels.now) command) }
{
    match head_of(alloc, granted, moment, principal, labels) {
        Ok(head) => behind(head, command),
        Err(unread) => Err(unread),
    }
}

fn head_of(
    alloc: Global,
    granted: &Labels,
    moment: &str,
    principal: &str,
    labels: &str,
) -> Result<Head, Unread>
    ensures { Gives said_head result (head_form granted.now moment.now principal.now labels.now) }
{
    let now = Moment(number_of(moment)?);
    let labels = labels_of(alloc, labels)?;
    let principal = text_of(alloc, principal)?;
    let tokens = granted.tokens_of(&labels)?;
    Ok(Head {
        now,
        principal,
        tokens,
    })
}

// A command behind what stands in front of it, which alone is taken apart.
fn behind(head: Head, command: Result<Command, Unread>) -> Result<Option<Request>, Unread>
    ensures { IsAskedOrRoom result (line_request (Some (said_head head)) command) }
{
    match command {
        Ok(command) => Ok(Some(Request {
            principal: head.principal,
            tokens: head.tokens,
            now: head.now,
            command,
        })),
        Err(unread) => Err(unread),
    }
}

// What stands between spaces, but for nothing between two.
fn words_of<'a>(alloc: Global, text: &'a str) -> Result<Vec<&'a str>, AllocError>
    ensures { IfOk result (λ found. map (λ word. word.now) found.items ≡ words text.now) }
{
    text.split(' ')
        .filter(|word| !word.is_empty())
        .collect(alloc)
}

// A path, which is asked for behind the form of all other words.
type Path = Result<DavPath, ParseError>;

// The command by its word and those behind its path, of which there are three at most.
fn command_of(
    alloc: Global,
    granted: &Labels,
    command: &str,
    path: Path,
    args: &[&str],
) -> Result<Command, Unread>
    ensures { CommandIs granted.now command.now path (map (λ arg. arg.now) args.now) result }
{
    match args {
        [] => with_no_words(command, path),
        [one] => with_one_word(alloc, granted, command, path, one),
        [one, two] => with_two_words(alloc, granted, command, path, one, two),
        [one, two, three] => with_three_words(alloc, command, path, one, two, three),
        _ => Err(Unread::Malformed),
    }
}

#[tactic(auto, unfolding(crate::specs::RequestLines::form_alone))]
fn with_no_words(command: &str, path: Path) -> Result<Command, Unread>
    ensures { IsReadCommand result (command_reading (form_alone command.now) path) }
{
    match command {
        "list" => Ok(Command::List { path: path? }),
        "meta" => Ok(Command::Meta { path: path? }),
        "mkcol" => Ok(Command::MkCol { path: path? }),
        "remove" => Ok(Command::Remove { path: path? }),
        "props" => props(path),
        "discover" => Ok(Command::Discover { path: path? }),
        _ => Err(Unread::Malformed),
    }
}

// The word is a second path, or says what is done at the one path.
fn with_one_word(
    alloc: Global,
    granted: &Labels,
    command: &str,
    path: Path,
    one: &str,
) -> Result<Command, Unread>
    ensures { IsWithOne granted.now command.now path one.now result }
{
    if has_two_paths(command) {
        return with_two_paths(command, path, DavPath::new(alloc, one));
    }
    at_one_path(alloc, granted, command, path, one)
}

fn has_two_paths(command: &str) -> bool
    ensures { result ≡ has_two_paths command.now }
{
    command == "move" || command == "copy"
}

#[tactic(auto, unfolding(crate::specs::RequestLines::form_of_ends))]
fn with_two_paths(command: &str, from: Path, to: Path) -> Result<Command, Unread>
    ensures { IsReadCommand result (command_reading (form_of_ends command.now) (both from to)) }
{
    match command {
        "move" => move_to(from, to),
        "copy" => copy_to(from, to),
        _ => Err(Unread::Malformed),
    }
}

#[tactic(auto, unfolding(crate::specs::RequestLines::form_with_one))]
fn at_one_path(
    alloc: Global,
    granted: &Labels,
    command: &str,
    path: Path,
    one: &str,
) -> Result<Command, Unread>
    ensures { IsReadOrRoom result (command_reading (form_with_one granted.now command.now one.now) path) }
{
    match command {
        "put" => put(alloc, path, one),
        "unlock" => unlock(granted, path, one),
        "check" => check(path, one),
        _ => Err(Unread::Malformed),
    }
}

#[tactic(auto, unfolding(crate::specs::RequestLines::form_with_two))]
fn with_two_words(
    alloc: Global,
    granted: &Labels,
    command: &str,
    path: Path,
    one: &str,
    two: &str,
) -> Result<Command, Unread>
    ensures { IsReadOrRoom result (command_reading (form_with_two granted.now command.now one.now two.now) path) }
{
    match command {
        "write" => write(alloc, path, one, two),
        "read" => read(path, one, two),
        "delprop" => delete_prop(alloc, path, one, two),
        "prop" => prop(alloc, path, one, two),
        "refresh" => refresh(granted, path, one, two),
        _ => Err(Unread::Malformed),
    }
}

#[tactic(auto, unfolding(crate::specs::RequestLines::form_with_three))]
fn with_three_words(
    alloc: Global,
    command: &str,
    path: Path,
    one: &str,
    two: &str,
    three: &str,
) -> Result<Command, Unread>
    ensures { IsReadOrRoom result (command_reading (form_with_three command.now one.now two.now three.now) path) }
{
    match command {
        "setprop" => set_prop(alloc, path, one, two, three),
        "lock" => lock(path, one, two, three),
        _ => Err(Unread::Malformed),
    }
}

fn put(alloc: Global, path: Path, hex: &str) -> Result<Command, Unread>
    ensures { IsReadOrRoom result (command_reading (put_form hex.now) path) }
{
    let bytes = bytes_of(alloc, hex)?;
    let path = path?;
    Ok(Command::Put { path, bytes })
}

fn write(alloc: Global, path: Path, at: &str, hex: &str) -> Result<Command, Unread>
    ensures { IsReadOrRoom result (command_reading (write_form at.now hex.now) path) }
{
    let at = place_of(at)?;
    let bytes = bytes_of(alloc, hex)?;
    let path = path?;
    Ok(Command::Write { path, at, bytes })
}

fn read(path: Path, at: &str, count: &str) -> Result<Command, Unread>
    ensures { IsReadCommand result (command_reading (read_form at.now count.now) path) }
{
    let at = number_of(at)? as usize;
    let count = number_of(count)? as usize;
    let path = path?;
    Ok(Command::Read { path, at, count })
}

fn move_to(from: Path, to: Path) -> Result<Command, Unread>
    ensures { IsReadCommand result (command_reading move_form (both from to)) }
{
    let from = from?;
    let to = to?;
    Ok(Command::Move { from, to })
}

fn copy_to(from: Path, to: Path) -> Result<Command, Unread>
    ensures { IsReadCommand result (command_reading copy_form (both from to)) }
{
    let from = from?;
    let to = to?;
    Ok(Command::Copy { from, to })
}

fn set_prop(
    alloc: Global,
    path: Path,
    space: &str,
    name: &str,
    hex: &str,
) -> Result<Command, Unread>
    ensures { IsReadOrRoom result (command_reading (set_form space.now name.now hex.now) path) }
{
    let xml = bytes_of(alloc, hex)?.as_slice().to_vec(alloc)?;
    let prop = prop_of(alloc, space, name, Some(xml))?;
    patch(alloc, path?, true, prop)
}

fn delete_prop(alloc: Global, path: Path, space: &str, name: &str) -> Result<Command, Unread>
    ensures { IsReadOrRoom result (command_reading (delete_form space.now name.now) path) }
{
    let prop = prop_of(alloc, space, name, None)?;
    patch(alloc, path?, false, prop)
}

// One property, to be set or removed.
fn patch(alloc: Global, path: DavPath, set: bool, prop: DavProp) -> Result<Command, Unread>
    ensures { IsReadOrRoom result (Ok (PatchProps (segments path.bytes) ((set, property_of prop) ∷ []))) }
{
    let mut patch = Vec::new(alloc);
    patch.push((set, prop))?;
    Ok(Command::PatchProps { path, patch })
}

fn props(path: Path) -> Result<Command, Unread>
    ensures { IsReadCommand result (command_reading props_form path) }
{
    let path = path?;
    let content = false;
    Ok(Command::GetProps { path, content })
}

fn prop(alloc: Global, path: Path, space: &str, name: &str) -> Result<Command, Unread>
    ensures { IsReadOrRoom result (command_reading (prop_form space.now name.now) path) }
{
    let prop = prop_of(alloc, space, name, None)?;
    let path = path?;
    Ok(Command::GetProp { path, prop })
}

fn lock(path: Path, scope: &str, depth: &str, timeout: &str) -> Result<Command, Unread>
    ensures { IsReadCommand result (command_reading (lock_form scope.now depth.now timeout.now) path) }
{
    let shared = is_shared(scope)?;
    let deep = is_deep(depth)?;
    let timeout = timeout_of(timeout)?;
    Ok(Command::Lock {
        path: path?,
        owner: None,
        timeout,
        shared,
        deep,
    })
}

fn unlock(granted: &Labels, path: Path, label: &str) -> Result<Command, Unread>
    ensures { IsReadOrRoom result (command_reading (unlock_form granted.now label.now) path) }
{
    if !is_label(label) {
        return Err(Unread::Malformed);
    }
    let token = granted.token_of(label)?;
    let path = path?;
    Ok(Command::Unlock { path, token })
}

fn refresh(granted: &Labels, path: Path, label: &str, timeout: &str) -> Result<Command, Unread>
    ensures { IsReadOrRoom result (command_reading (refresh_form granted.now label.now timeout.now) path) }
{
    if !is_label(label) {
        return Err(Unread::Malformed);
    }
    let timeout = timeout_of(timeout)?;
    let token = granted.token_of(label)?;
    let path = path?;
    Ok(Command::Refresh {
        path,
        token,
        timeout,
    })
}

fn check(path: Path, depth: &str) -> Result<Command, Unread>
    ensures { IsReadCommand result (command_reading (check_form depth.now) path) }
{
    let deep = is_deep(depth)?;
    let path = path?;
    Ok(Command::Check { path, deep })
}

// A number within u64, in decimal digits.
fn number_of(word: &str) -> Result<u64, Unread>
    ensures { result ≡ exactly (numeral word.now) }
{
    match number(word) {
        Some(value) => Ok(value),
        None => Err(Unread::Malformed),
    }
}

// `shallow` or `deep`.
#[tactic(auto, unfolding(crate::specs::RequestLines::depth_of_word))]
fn is_deep(word: &str) -> Result<bool, Unread>
    ensures { result ≡ exactly (depth_of_word word.now) }
{
    match word {
        "shallow" => Ok(false),
        "deep" => Ok(true),
        _ => Err(Unread::Malformed),
    }
}

// `exclusive` or `shared`.
#[tactic(auto, unfolding(crate::specs::RequestLines::scope_of_word))]
fn is_shared(word: &str) -> Result<bool, Unread>
    ensures { result ≡ exactly (scope_of_word word.now) }
{
    match word {
        "exclusive" => Ok(false),
        "shared" => Ok(true),
        _ => Err(Unread::Malformed),
    }
}

// Seconds, or `-` for none.
fn timeout_of(word: &str) -> Result<Option<u64>, Unread>
    ensures { result ≡ exactly (timeout_word word.now) }
{
    number_or("-", word)
}

// A place in the bytes, or `end`.
fn place_of(word: &str) -> Result<Option<usize>, Unread>
    ensures { result ≡ exactly (place_word word.now) }
{
    match number_or("end", word)? {
        Some(at) => Ok(Some(at as usize)),
        None => Ok(None),
    }
}

// A number within u64, or the word for none.
#[tactic(auto, unfolding(crate::specs::RequestLines::number_or))]
fn number_or(none: &str, word: &str) -> Result<Option<u64>, Unread>
    ensures { result ≡ exactly (number_or none.now word.now) }
{
    if word == none {
        return Ok(None);
    }
    match number(word) {
        Some(value) => Ok(Some(value)),
        None => Err(Unread::Malformed),
    }
}

// A text, or `-` for none.
#[tactic(auto, unfolding(crate::specs::RequestLines::text_word))]
fn text_of(alloc: Global, word: &str) -> Result<Option<String>, AllocError>
    ensures { IfOk result (λ text. option_map string_bytes text ≡ text_word word.now) }
{
    if word == "-" {
        return Ok(None);
    }
    Ok(Some(String::from_str(alloc, word)?))
}

// A property without a prefix; its namespace is `-` for none.
fn prop_of(
    alloc: Global,
    space: &str,
    name: &str,
    xml: Option<Vec<u8>>,
) -> Result<DavProp, AllocError>
    ensures { IfOk result (λ prop. property_of prop ≡ record {
      name = name.now;
      prefix = None;
      namespace = text_word space.now;
      xml = option_map (λ bytes. bytes.items) xml;
    }) }
{
    Ok(DavProp {
        name: String::from_str(alloc, name)?,
        prefix: None,
        namespace: text_of(alloc, space)?,
        xml,
    })
}

// An even number of hexadecimal digits, or `-` for no bytes.
#[tactic(auto, unfolding(crate::specs::RequestLines::hex_word))]
fn bytes_of(alloc: Global, word: &str) -> Result<Bytes, Unread>
    ensures { Gives (λ bytes. bytes) result (hex_word word.now) }
{
    if word == "-" {
        return Ok(Bytes::new());
    }
    match hex::decode(alloc, word) {
        Ok(bytes) => Ok(Bytes::from_vec(bytes)?),
        Err(hex::FromHexError::OutOfMemory) => Err(Unread::OutOfMemory),
        Err(_) => Err(Unread::Malformed),
    }
}

// Labels joined by commas, or `-` for none.
#[tactic(auto, unfolding(crate::specs::RequestLines::labels_word))]
fn labels_of<'a>(alloc: Global, word: &'a str) -> Result<Vec<&'a str>, Unread>
    ensures { Gives (λ labels. map (λ label. label.now) labels.items) result (labels_word word.now) }
{
    if word == "-" {
        return Ok(Vec::new(alloc));
    }
    let labels = pieces_of(alloc, word)?;
    if are_labels(&labels) {
        Ok(labels)
    } else {
        Err(Unread::Malformed)
    }
}

// What stands between commas.
fn pieces_of<'a>(alloc: Global, word: &'a str) -> Result<Vec<&'a str>, AllocError>
    ensures { IfOk result (λ pieces. map (λ piece. piece.now) pieces.items ≡ slice_split is_comma word.now) }
{
    word.split(',').collect(alloc)
}

fn are_labels(words: &[&str]) -> bool
    ensures { result ≡ list_all (λ word. is_label word.now) words.now }
{
    words.iter().all(|word| is_label(word))
}

// `t` and a number from 1 without leading zeros.
#[tactic(auto, unfolding(crate::specs::RequestLines::is_label))]
fn is_label(word: &str) -> bool
    ensures { result ≡ is_label word.now }
{
    match word.strip_prefix("t") {
        Some(digits) => is_count(digits),
        None => false,
    }
}

fn is_count(digits: &str) -> bool
    ensures { result ≡ is_count digits.now }
{
    match digits.as_bytes() {
        [first, ..] => *first != b'0' && is_digits(digits),
        [] => false,
    }
}
