//! How many bytes a note has in a record at most.
ghost use Rattle.std.specs.Prelude.{◌≡◌, ◌+◌, ℕ, Bool, List, Option, length, map, option_map, string_bytes};
ghost use Rattle.std.specs.List.{sum_by};
ghost use Rattle.dav_files_core.specs.Properties.{patch_update, property_of};
ghost use Rattle.dav_path_core.specs.Segments.{segments};
ghost use Rattle.dav_guarded_core.specs.Requests.{Command as plain};
ghost use Rattle.dav_guarded_core.specs.Served.{command_of};
ghost use Rattle.dav_notes_core.specs.Asking.{sender_of};
ghost use Rattle.dav_notes_core.specs.Costs.{in_eight_bytes, caller_cost, command_cost, cost_for};
ghost use Rattle.dav_notes_core.specs.Costs.{patch_cost, path_cost, property_cost, text_cost};

use crate::senders::Sender;
use dav_guarded_core::davpath::DavPath;
use dav_guarded_core::fs::DavProp;
use dav_guarded_core::guarded::Command;

// What a note has beside its texts, at most.
const FIXED: u64 = 104;

// What a token has beside its text, and what a property has beside its texts.
const TOKEN: u64 = 8;

const PROPERTY: u64 = 36;

/// How many bytes the note of a sender's command has in a record at most (own); `u64::MAX` where it is
/// more than that.
pub fn cost_for(who: &Sender, command: &Command) -> u64
    ensures { result ≡ in_eight_bytes (cost_for (sender_of who.entry.now) (command_of command.now)) }
{
    let texts = caller_cost(who).saturating_add(command_cost(command));
    texts.saturating_add(FIXED)
}

/// How many of them are those of the command's texts (own).
pub fn command_cost(command: &Command) -> u64
    ensures { result ≡ in_eight_bytes (command_cost (command_of command.now)) }
{
    match command {
        Command::Put { path, bytes } => return path_cost(path).saturating_add(bytes.len() as u64),
        Command::Write { path, bytes, .. } => {
            return path_cost(path).saturating_add(bytes.len() as u64);
        }
        Command::MkCol { path } => return path_cost(path),
        Command::Remove { path } => return path_cost(path),
        Command::Move { from, to } => return path_cost(from).saturating_add(path_cost(to)),
        Command::Copy { from, to } => return path_cost(from).saturating_add(path_cost(to)),
        Command::PatchProps { path, patch } => {
            return path_cost(path).saturating_add(patch_cost(patch));
        }
        Command::Lock { path, owner, .. } => return lock_cost(path, owner),
        Command::Unlock { path, token } => {
            return path_cost(path).saturating_add(token.len() as u64);
        }
        Command::Refresh { path, token, .. } => {
            return path_cost(path).saturating_add(token.len() as u64);
        }
        _ => return 0,
    }
}

// The principal and the tokens.
fn caller_cost(who: &Sender) -> u64
    ensures { result ≡ in_eight_bytes (caller_cost (sender_of who.entry.now)) }
{
    text_cost(&who.principal).saturating_add(tokens_cost(&who.tokens))
}

fn tokens_cost(tokens: &[String]) -> u64
    ensures { result ≡ in_eight_bytes (sum_by (λ t. length t + 8) (map string_bytes tokens.now)) }
{
    let mut sum = 0u64;
    'adding: for token in tokens {
        sum = sum.saturating_add(token.len() as u64).saturating_add(TOKEN);
    }
    sum
}

// A lock keeps its path's text, prefix and all.
fn lock_cost(path: &DavPath, owner: &Option<String>) -> u64
    ensures { result ≡ in_eight_bytes (length path.now.prefix + (length path.now.bytes
        + text_cost (option_map string_bytes owner.now))) }
{
    let path_len = (path.prefix().len() as u64).saturating_add(path.as_bytes().len() as u64);
    path_len.saturating_add(text_cost(owner))
}

/// How many bytes a path has as a folder's (own); `u64::MAX` where it has more.
pub fn path_cost(path: &DavPath) -> u64
    ensures { result ≡ in_eight_bytes (path_cost (segments path.now.bytes)) }
{
    let mut sum = 1u64;
    'adding: for segment in path.segments() {
        sum = sum.saturating_add(segment.len() as u64).saturating_add(1);
    }
    sum
}

fn patch_cost(patch: &[(bool, DavProp)]) -> u64
    ensures { result ≡ in_eight_bytes (patch_cost (map patch_update patch.now)) }
{
    let mut sum = 0u64;
    'adding: for update in patch {
        sum = sum
            .saturating_add(property_cost(&update.1))
            .saturating_add(PROPERTY);
    }
    sum
}

fn property_cost(property: &DavProp) -> u64
    ensures { result ≡ in_eight_bytes (property_cost (property_of property.now)) }
{
    let named = (property.name.len() as u64).saturating_add(text_cost(&property.prefix));
    let spaced = named.saturating_add(text_cost(&property.namespace));
    spaced.saturating_add(bytes_cost(&property.xml))
}

fn text_cost(text: &Option<String>) -> u64
    ensures { result ≡ in_eight_bytes (text_cost (option_map string_bytes text.now)) }
{
    match text {
        Some(text) => text.len() as u64,
        None => 0,
    }
}

fn bytes_cost(bytes: &Option<Vec<u8>>) -> u64
    ensures { result ≡ in_eight_bytes (text_cost (option_map (λ v. v.items) bytes.now)) }
{
    match bytes {
        Some(bytes) => bytes.len() as u64,
        None => 0,
    }
}

/// How many bytes the note of taking away what stands at a path costs (own); `u64::MAX` where it is
/// more.
pub fn cost_of_removal(who: &Sender, path: &DavPath) -> u64
    ensures { result ≡ in_eight_bytes (cost_for (sender_of who.entry.now) (plain.Remove (segments path.now.bytes))) }
{
    caller_cost(who)
        .saturating_add(path_cost(path))
        .saturating_add(FIXED)
}

/// How many bytes the note of ending a lock costs, whose token has so many (own); `u64::MAX` where it
/// is more.
pub fn cost_of_unlock(who: &Sender, path: &DavPath, token_len: usize) -> u64
    ensures { (token : List ℕ) → length token ≡ token_len → result
        ≡ in_eight_bytes (cost_for (sender_of who.entry.now) (plain.Unlock (segments path.now.bytes) token)) }
{
    let texts = path_cost(path).saturating_add(token_len as u64);
    caller_cost(who).saturating_add(texts).saturating_add(FIXED)
}

/// How many bytes the note of a granted lock costs (own); `u64::MAX` where it is more.
pub fn cost_of_lock(who: &Sender, path: &DavPath, owner: &Option<String>) -> u64
    ensures { (timeout : Option ℕ) (shared deep : Bool) → result ≡ in_eight_bytes (cost_for
        (sender_of who.entry.now)
        (plain.Lock path.now (option_map string_bytes owner.now) timeout shared deep)) }
{
    caller_cost(who)
        .saturating_add(lock_cost(path, owner))
        .saturating_add(FIXED)
}

/// How many bytes the note of copying or moving a resource costs (own); `u64::MAX` where it is more.
pub fn cost_of_transfer(who: &Sender, from: &DavPath, to: &DavPath) -> u64
    ensures copies { result ≡ in_eight_bytes (cost_for (sender_of who.entry.now)
        (plain.Copy (segments from.now.bytes) (segments to.now.bytes))) }
    ensures moves { result ≡ in_eight_bytes (cost_for (sender_of who.entry.now)
        (plain.Move (segments from.now.bytes) (segments to.now.bytes))) }
{
    let texts = path_cost(from).saturating_add(path_cost(to));
    caller_cost(who).saturating_add(texts).saturating_add(FIXED)
}
