//! What is noted of a request, and which requests are.
ghost use Rattle.std.specs.Prelude.{◌≡◌, List, Option, ℕ};
ghost use Rattle.dav_files_core.specs.Resources.{IsResourceMap};
ghost use Rattle.dav_guarded_core.specs.Served.{answer_of, command_of, request_of};
ghost use Rattle.dav_notes_core.specs.Changes.{grants, is_look};
ghost use Rattle.dav_notes_core.specs.Drawing.{stream_giving};
ghost use Rattle.dav_notes_core.specs.Stepping.{AnsweredBy, Draws};

use crate::drawn::Drawn;
use dav_guarded_core::guarded::{Command, Guarded, Refusal, Reply, Request};

/// A request that was done and may have changed something (own).
#[derive(Drop)]
pub struct Note {
    /// Who asked, with which tokens, when, and for what.
    pub request: Request,
    /// Of a granted lock, the bytes that its token was drawn from.
    pub drawn: Option<[u8; 16]>,
}

/// Whether the command changes nothing (own).
#[inline]
pub fn is_look(command: &Command) -> bool
    ensures { result ≡ is_look (command_of command.now) }
{
    match command {
        Command::Read { .. }
        | Command::List { .. }
        | Command::Meta { .. }
        | Command::GetProps { .. }
        | Command::GetProp { .. }
        | Command::Discover { .. }
        | Command::Check { .. } => true,
        _ => false,
    }
}

/// Whether a token is drawn where the command is done (own).
#[inline]
pub fn is_grant(command: &Command) -> bool
    ensures { result ≡ grants (command_of command.now) }
{
    match command {
        Command::Lock { .. } => true,
        _ => false,
    }
}

/// Makes one request, where a generator gives these bytes (own). It is answered as by
/// `Guarded::apply`.
#[inline]
pub fn apply_given(
    stores: &mut Guarded,
    request: &Request,
    bytes: [u8; 16],
) -> Result<Reply, Refusal>
    ensures answered { (drawn : Option (List ℕ))
        → Draws (command_of request.entry.now.command) drawn (stream_giving bytes)
        → AnsweredBy drawn stores.old (request_of request.entry.now) (answer_of result) stores.new }
    ensures shape { IsResourceMap stores.new.map }
{
    let mut rng = Drawn { bytes };
    stores.apply(request, &mut rng)
}
