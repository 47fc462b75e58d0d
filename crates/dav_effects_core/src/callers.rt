//! Callers, each behind the one before.
ghost use Rattle.std.specs.Prelude.{◌≡◌, ◌++◌, IfOk, OnOk};
ghost use Rattle.dav_guarded_core.specs.Served.{request_of};
ghost use Rattle.dav_notes_core.specs.Asking.{sender_of};
ghost use Rattle.dav_effects_core.specs.ByteForms.{HasCount, following_text};
ghost use Rattle.dav_effects_core.specs.RecordReading.{caller_at, whole_caller_at};
ghost use Rattle.dav_effects_core.specs.RecordText.{asker, caller_text};
ghost use Rattle.dav_effects_core.specs.Records.{IsCaller};
ghost use Rattle.dav_effects_core.specs.Reads.{ReadsField};

use crate::error::{ReadError, at_field};
use crate::fields::{all_texts_of, following_of, number_of, optional_text_of};
use crate::putting::{put_following, put_number, put_optional_text, put_texts};
use dav_guarded_core::fs::Moment;
use dav_guarded_core::guarded::Request;
use dav_notes_core::senders::Sender;
use std::alloc::{AllocError, Global};

#[tactic(auto, unfolding(crate::specs::RecordReading::whole_caller_at))]
fn read_whole_sender(alloc: Global, bytes: &[u8]) -> Result<(Sender, &[u8]), ReadError>
    ensures { ReadsField (λ x. (sender_of x.0, x.1.now)) result (whole_caller_at bytes.now) }
{
    let (now, rest) = number_of(bytes)?;
    let (principal, rest) = optional_text_of(alloc, rest)?;
    let (tokens, rest) = all_texts_of(alloc, rest)?;
    let who = Sender {
        principal,
        tokens,
        now: Moment(now),
    };
    Ok((who, rest))
}

/// A caller, who takes the place of the one before.
#[tactic(auto, unfolding(crate::specs::RecordReading::caller_at))]
pub(crate) fn read_sender<'a>(
    alloc: Global,
    before: &mut Vec<u8>,
    bytes: &'a [u8],
) -> Result<(Sender, &'a [u8]), ReadError>
    ensures reads { ReadsField (λ x. (sender_of x.0, x.1.now)) result (caller_at before.old.items bytes.now) }
    ensures before { IfOk result (λ x. before.new.items ≡ caller_text (sender_of x.0)) }
{
    let (text, rest) = following_of(alloc, before, bytes)?;
    let (who, left) = match read_whole_sender(alloc, &text) {
        Ok(found) => found,
        Err(error) => return Err(at_field(error, bytes.len())),
    };
    if !left.is_empty() {
        return Err(ReadError::Fault(bytes.len()));
    }
    *before = text;
    Ok((who, rest))
}

#[tactic(auto, unfolding(crate::specs::RecordText::caller_text))]
fn put_whole_caller(out: &mut Vec<u8>, request: &Request) -> Result<(), AllocError>
    ensures text { OnOk result (out.new.items ≡ out.old.items ++ caller_text (asker (request_of request.entry.now))) }
    ensures fits { OnOk result (IsCaller (asker (request_of request.entry.now))) }
{
    put_number(out, request.now.0)?;
    put_optional_text(out, &request.principal)?;
    put_texts(out, &request.tokens)
}

/// Puts who asks, who takes the place of the one before.
pub(crate) fn put_caller(
    alloc: Global,
    out: &mut Vec<u8>,
    before: &mut Vec<u8>,
    request: &Request,
) -> Result<(), AllocError>
    ensures text { OnOk result (out.new.items ≡ out.old.items ++ following_text before.old.items (caller_text (asker (request_of request.entry.now)))) }
    ensures before { OnOk result (before.new.items ≡ caller_text (asker (request_of request.entry.now))) }
    ensures fits { OnOk result (IsCaller (asker (request_of request.entry.now))) }
    ensures brief { OnOk result (HasCount (caller_text (asker (request_of request.entry.now)))) }
{
    let mut text = Vec::new(alloc);
    put_whole_caller(&mut text, request)?;
    put_following(out, before, &text)?;
    *before = text;
    Ok(())
}
