//! Who asks.
ghost use Rattle.std.specs.Prelude.{◌≡◌, ℕ, List, IfOk, OnErr, OnOk, option_map, string_bytes};
ghost use Rattle.dav_guarded_core.specs.Served.{command_of, request_of};
ghost use Rattle.dav_notes_core.specs.Asking.{Caller, also_naming, asker_of, asking, nobody};
ghost use Rattle.dav_notes_core.specs.Asking.{sender_of};

use dav_guarded_core::fs::Moment;
use dav_guarded_core::guarded::{Command, Request};
use std::alloc::{AllocError, Global};
use std::mem;

/// Who asks (RFC 4918 sections 6.4 and 10.4).
#[derive(Drop)]
pub struct Sender {
    /// None where nobody is named.
    pub principal: Option<String>,
    /// The lock tokens that are submitted.
    pub tokens: Vec<String>,
    /// The moment at which it is asked.
    pub now: Moment,
}

impl Sender {
    /// The same once more (own). `AllocError` where there is no memory for it.
    pub fn copy(&self) -> Result<Sender, AllocError>
        ensures { IfOk result (λ copy. sender_of copy ≡ sender_of self.entry.now) }
    {
        Ok(Sender {
            principal: text_copy(&self.principal)?,
            tokens: self.tokens.clone()?,
            now: self.now,
        })
    }
}

// The same text once more, where there is one.
fn text_copy(text: &Option<String>) -> Result<Option<String>, AllocError>
    ensures { IfOk result (λ copy. option_map string_bytes copy
        ≡ option_map string_bytes text.now) }
{
    match text {
        Some(text) => Ok(Some(text.clone()?)),
        None => Ok(None),
    }
}

/// A request of the sender's (own).
#[inline]
pub fn request_by(who: Sender, command: Command) -> Request
    ensures { request_of result ≡ asking (sender_of who) (command_of command) }
{
    let Sender {
        principal,
        tokens,
        now,
    } = who;
    Request {
        principal,
        tokens,
        now,
        command,
    }
}

/// A request of nobody's (own): without tokens, at the moment 0.
#[inline(always)]
pub fn unasked(command: Command, alloc: Global) -> Request
    ensures command { (request_of result).command ≡ command_of command }
    ensures asker { asker_of (request_of result) ≡ nobody }
{
    Request {
        principal: None,
        tokens: Vec::new(alloc),
        now: Moment(0),
        command,
    }
}

/// Swaps who asks by a request with the sender (own). Swapped twice, both are as before.
#[inline(always)]
pub fn swap_asker(who: &mut Sender, request: &mut Request)
    ensures who { sender_of who.new ≡ asker_of (request_of request.old) }
    ensures request { request_of request.new
        ≡ asking (sender_of who.old) (request_of request.old).command }
{
    mem::swap(&mut who.principal, &mut request.principal);
    mem::swap(&mut who.tokens, &mut request.tokens);
    mem::swap(&mut who.now, &mut request.now);
}

/// Adds a token to those that are submitted (own). `AllocError` where there is no memory for it.
pub fn add_token(who: &mut Sender, token: String) -> Result<(), AllocError>
    ensures ok { OnOk result (sender_of who.new
        ≡ also_naming (sender_of who.old) (string_bytes token)) }
    ensures err { OnErr result (sender_of who.new ≡ sender_of who.old) }
{
    who.tokens.push(token)?;
    Ok(())
}

/// Takes the token away that was added last (own).
pub fn drop_token(who: &mut Sender)
    ensures { (before : Caller) (token : List ℕ) → sender_of who.old ≡ also_naming before token
        → sender_of who.new ≡ before }
{
    drop(who.tokens.pop());
}
