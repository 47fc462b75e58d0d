//! Answers to the lines of a scenario.
ghost use Rattle.std.specs.Prelude.{◌≡◌, ◌∷◌, ◌++◌, [], ℕ, List, Ok, OnOk, string_bytes};
ghost use Rattle.std.specs.Io.KnownBytes.{Appends};
ghost use Rattle.dav_resource_core.specs.AnswerTexts.{answer_line, label_text, lock_line, ok_line, reply_line, spaced_word, tokens_after};
ghost use Rattle.dav_resource_core.specs.Labels.{label_in};
ghost use Rattle.dav_resource_core.specs.Private.LineReading.{IsNoLock};
ghost use Rattle.dav_guarded_core.specs.Requests as plain;
ghost use Rattle.dav_guarded_core.specs.declared.guarded.requests.Reply.TheVariants.{Lock as Granted};
ghost use Rattle.dav_resource_core.specs.Private.Playing.{PlaysRequest};
ghost use Rattle.dav_guarded_core.specs.Served.{answer_of, command_of, reply_of, request_of};
ghost use Rattle.dav_guarded_core.specs.Stores.{state_of};

use super::answers::{
    write_bytes, write_entries, write_locks, write_meta, write_props, write_refreshed,
    write_refusal, write_statuses,
};
use super::labels::Labels;
use dav_guarded_core::guarded::{Command, Guarded, Refusal, Reply, Request};
use dav_locks_core::ls::DavLock;
use line_streams::Fault;
use rand_core::Rng;
use std::io::Write;

/// The stores, the generator of lock tokens, and the labels of the locks granted so far.
#[derive(Drop)]
pub(super) struct Player<R: Rng + Drop> {
    pub(super) stores: Guarded,
    pub(super) rng: R,
    pub(super) labels: Labels,
}

impl<R: Rng + Drop> Player<R> {
    /// Runs a request, and writes its answer.
    pub(super) fn answer<O: Write>(
        &mut self,
        request: &Request,
        output: &mut O,
    ) -> Result<(), Fault>
        ensures { OnOk result ((written : List ℕ) × PlaysRequest (state_of self.old.stores (R.stream self.old.rng), self.old.labels) (request_of request.entry.now)
            (state_of self.new.stores (R.stream self.new.rng), self.new.labels) written
            × Appends (O.contents output.old) (O.contents output.new) written) }
    {
        let answer = self.stores.apply(request, &mut self.rng);
        write_answer(&mut self.labels, &request.command, answer, output)
    }
}

// The line of the answer to a command. The token of a lock that was granted is kept.
fn write_answer<O: Write>(
    labels: &mut Labels,
    command: &Command,
    answer: Result<Reply, Refusal>,
    output: &mut O,
) -> Result<(), Fault>
    ensures tokens { OnOk result (labels.new ≡ tokens_after (command_of command.now) (answer_of answer) labels.old) }
    ensures line { OnOk result (Appends (O.contents output.old) (O.contents output.new)
        (answer_line (label_in labels.new) (command_of command.now) (answer_of answer))) }
{
    match answer {
        Ok(Reply::Lock(lock)) => write_lock(labels, command, lock, output),
        Ok(reply) => write_reply(labels, &reply, output),
        Err(refusal) => write_refusal(labels, &refusal, output),
    }
}

// The label of a lock: the token of one that was granted is kept, and of one that was refreshed its end is told.
fn write_lock<O: Write>(
    labels: &mut Labels,
    command: &Command,
    lock: DavLock,
    output: &mut O,
) -> Result<(), Fault>
    ensures tokens { OnOk result (labels.new ≡ tokens_after (command_of command.now) (answer_of (Ok (Granted lock))) labels.old) }
    ensures line { OnOk result (Appends (O.contents output.old) (O.contents output.new)
        (lock_line (label_in labels.new) (command_of command.now) lock)) }
{
    match command {
        Command::Refresh { .. } => write_refreshed(labels, &lock, output),
        _ => write_granted(labels, lock.token, output),
    }
}

// The label of a lock that was granted, whose token is kept.
fn write_granted<O: Write>(labels: &mut Labels, token: String, output: &mut O) -> Result<(), Fault>
    ensures tokens { OnOk result (labels.new ≡ labels.old ++ string_bytes token ∷ []) }
    ensures line { OnOk result (Appends (O.contents output.old) (O.contents output.new)
        (ok_line (spaced_word (label_text (label_in labels.new (string_bytes token)))))) }
{
    let number = labels.add(token)?;
    Ok(writeln!(output, "ok t{number}")?)
}

// The line of a reply that shows no single lock.
fn write_reply<O: Write>(labels: &Labels, reply: &Reply, output: &mut O) -> Result<(), Fault>
    requires { IsNoLock reply.now }
    ensures { (command : plain.Command) → OnOk result (Appends (O.contents output.old) (O.contents output.new)
        (reply_line (label_in labels.now) command (reply_of reply.now))) }
{
    match reply {
        Reply::Done => Ok(output.write_all(b"ok\n")?),
        Reply::Bytes(bytes) => write_bytes(bytes.as_slice(), output),
        Reply::Entries(entries) => write_entries(entries, output),
        Reply::Meta(meta) => write_meta(meta, output),
        Reply::Patched(answers) => write_statuses(answers, output),
        Reply::Props(props) => write_props(props, output),
        Reply::Value(xml) => write_bytes(xml, output),
        Reply::Locks(locks) => write_locks(labels, locks, output),
        Reply::Lock(_) => unreachable!(),
    }
}
