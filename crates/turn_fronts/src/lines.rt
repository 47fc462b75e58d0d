//! The line for one request, or for clients that were sent away.
ghost use Rattle.std.specs.Prelude.{◌≡◌, ◌++◌, ◌<◌, decimal, IfOk, OnOk};
ghost use Rattle.turn_fronts.specs.LogLines.{escape, escaped_byte, escaped_bytes, hex_letter, is_shown, json_number, json_text, json_told, log_answer_json, log_client_json, log_common, log_date};
ghost use Rattle.turn_fronts.specs.LogLines.{log_fields, log_fields_json, log_line, log_told, log_told_json, log_took};
ghost use Rattle.turn_fronts.specs.LineViews.{log_entry_of, told_of};

use itoa::Buffer;
use std::alloc::{AllocError, Global};

/// In which form a log has its lines.
#[derive(Clone, Copy, PartialEq, Eq)]
pub enum Format {
    /// The common log format, with the time that an answer took at its end.
    Common,
    /// The combined log format, with that time at its end.
    Combined,
    /// An object of JSON (RFC 8259).
    Json,
}

/// Where in a line a text of a client's stands.
#[derive(Clone, Copy, PartialEq, Eq)]
pub(crate) enum Place {
    InWord,
    InQuotes,
    InJson,
}

/// What a line tells of.
#[derive(Clone, Copy)]
pub(crate) enum Told<'a> {
    /// A request, by its method and its target.
    Request {
        /// The method.
        method: &'a [u8],
        /// The path, and the query behind a `?`.
        target: &'a [u8],
    },
    /// What was no request.
    Nothing,
    /// So many connections that had no place.
    Connections(u64),
}

/// What a line tells: where the client is, who was let in, the moment, what was asked, the status of the answer, how many bytes went out as its body, how many microseconds it took, and two fields of
/// the request.
#[derive(Clone, Copy)]
pub(crate) struct Entry<'a> {
    pub(crate) address: &'a [u8],
    pub(crate) user: &'a [u8],
    pub(crate) seconds: u64,
    pub(crate) date: &'a [u8; 29],
    pub(crate) told: Told<'a>,
    pub(crate) status: u64,
    pub(crate) bytes: u64,
    pub(crate) took: u64,
    pub(crate) referer: &'a [u8],
    pub(crate) agent: &'a [u8],
}

/// The line, with its end. `AllocError` where there is no memory.
pub(crate) fn line_of(
    alloc: Global,
    format: Format,
    entry: &Entry<'_>,
) -> Result<Vec<u8>, AllocError>
    ensures { IfOk result (λ line. line.items ≡ log_line format (log_entry_of entry.now)) }
{
    let mut line = Vec::new(alloc);
    match format {
        Format::Common => {
            add_common(&mut line, entry)?;
            add_took(&mut line, entry)?;
        }
        Format::Combined => {
            add_common(&mut line, entry)?;
            add_fields(&mut line, entry)?;
            add_took(&mut line, entry)?;
        }
        Format::Json => {
            add_client_json(&mut line, entry)?;
            add_told_json(&mut line, entry)?;
            add_answer_json(&mut line, entry)?;
            add_fields_json(&mut line, entry)?;
        }
    }
    Ok(line)
}

fn add_common(line: &mut Vec<u8>, entry: &Entry<'_>) -> Result<(), AllocError>
    ensures { OnOk result (line.new.items ≡ line.old.items ++ log_common (log_entry_of entry.now)) }
{
    add_escaped(line, Place::InWord, entry.address)?;
    line.extend_from_slice(b" - ")?;
    add_escaped(line, Place::InWord, entry.user)?;
    line.extend_from_slice(b" [")?;
    add_date(line, entry.date)?;
    line.extend_from_slice(b"] \"")?;
    add_told(line, Place::InWord, &entry.told)?;
    line.extend_from_slice(b"\" ")?;
    add_number(line, entry.status)?;
    line.extend_from_slice(b" ")?;
    add_number(line, entry.bytes)
}

fn add_fields(line: &mut Vec<u8>, entry: &Entry<'_>) -> Result<(), AllocError>
    ensures { OnOk result (line.new.items ≡ line.old.items ++ log_fields (log_entry_of entry.now)) }
{
    line.extend_from_slice(b" \"")?;
    add_escaped(line, Place::InQuotes, entry.referer)?;
    line.extend_from_slice(b"\" \"")?;
    add_escaped(line, Place::InQuotes, entry.agent)?;
    line.extend_from_slice(b"\"")
}

fn add_took(line: &mut Vec<u8>, entry: &Entry<'_>) -> Result<(), AllocError>
    ensures { OnOk result (line.new.items ≡ line.old.items ++ log_took (log_entry_of entry.now)) }
{
    line.extend_from_slice(b" ")?;
    add_number(line, entry.took)?;
    line.extend_from_slice(b"\n")
}

fn add_client_json(line: &mut Vec<u8>, entry: &Entry<'_>) -> Result<(), AllocError>
    ensures { OnOk result (line.new.items ≡ line.old.items ++ log_client_json (log_entry_of entry.now)) }
{
    line.extend_from_slice(b"{")?;
    add_json_number(line, b"time", entry.seconds)?;
    line.extend_from_slice(b",")?;
    add_json_text(line, b"address", entry.address)?;
    line.extend_from_slice(b",")?;
    add_json_text(line, b"user", entry.user)?;
    line.extend_from_slice(b",")
}

fn add_told_json(line: &mut Vec<u8>, entry: &Entry<'_>) -> Result<(), AllocError>
    ensures { OnOk result (line.new.items ≡ line.old.items ++ log_told_json (log_entry_of entry.now)) }
{
    add_json_told(line, &entry.told)?;
    line.extend_from_slice(b",")?;
    add_json_number(line, b"status", entry.status)?;
    line.extend_from_slice(b",")
}

fn add_answer_json(line: &mut Vec<u8>, entry: &Entry<'_>) -> Result<(), AllocError>
    ensures { OnOk result (line.new.items ≡ line.old.items ++ log_answer_json (log_entry_of entry.now)) }
{
    add_json_number(line, b"bytes", entry.bytes)?;
    line.extend_from_slice(b",")?;
    add_json_number(line, b"took", entry.took)?;
    line.extend_from_slice(b",")
}

fn add_fields_json(line: &mut Vec<u8>, entry: &Entry<'_>) -> Result<(), AllocError>
    ensures { OnOk result (line.new.items ≡ line.old.items ++ log_fields_json (log_entry_of entry.now)) }
{
    add_json_text(line, b"referer", entry.referer)?;
    line.extend_from_slice(b",")?;
    add_json_text(line, b"agent", entry.agent)?;
    line.extend_from_slice(b"}\n")
}

#[tactic(auto, unfolding(crate::specs::LogLines::json_number))]
fn add_json_number(line: &mut Vec<u8>, name: &[u8], number: u64) -> Result<(), AllocError>
    ensures { OnOk result (line.new.items ≡ line.old.items ++ json_number name.now number) }
{
    line.extend_from_slice(b"\"")?;
    line.extend_from_slice(name)?;
    line.extend_from_slice(b"\":")?;
    add_number(line, number)
}

#[tactic(auto, unfolding(crate::specs::LogLines::json_text))]
fn add_json_text(line: &mut Vec<u8>, name: &[u8], text: &[u8]) -> Result<(), AllocError>
    ensures { OnOk result (line.new.items ≡ line.old.items ++ json_text name.now text.now) }
{
    line.extend_from_slice(b"\"")?;
    line.extend_from_slice(name)?;
    line.extend_from_slice(b"\":\"")?;
    add_escaped(line, Place::InJson, text)?;
    line.extend_from_slice(b"\"")
}

#[tactic(auto, unfolding(crate::specs::LogLines::json_told))]
fn add_json_told(line: &mut Vec<u8>, told: &Told<'_>) -> Result<(), AllocError>
    ensures { OnOk result (line.new.items ≡ line.old.items ++ json_told (told_of told.now)) }
{
    line.extend_from_slice(b"\"request\":\"")?;
    add_told(line, Place::InJson, told)?;
    line.extend_from_slice(b"\"")
}

fn add_told(line: &mut Vec<u8>, place: Place, told: &Told<'_>) -> Result<(), AllocError>
    ensures { OnOk result (line.new.items ≡ line.old.items ++ log_told place (told_of told.now)) }
{
    match *told {
        Told::Request { method, target } => {
            add_escaped(line, place, method)?;
            line.extend_from_slice(b" ")?;
            add_escaped(line, place, target)?;
            line.extend_from_slice(b" HTTP/1.1")
        }
        Told::Nothing => line.extend_from_slice(b"-"),
        Told::Connections(count) => {
            add_number(line, count)?;
            line.extend_from_slice(b" connections")
        }
    }
}

fn add_number(line: &mut Vec<u8>, number: u64) -> Result<(), AllocError>
    ensures { OnOk result (line.new.items ≡ line.old.items ++ decimal number) }
{
    line.extend_from_slice(Buffer::new().format(number).as_bytes())
}

#[tactic(auto, unfolding(crate::specs::LogLines::log_date))]
fn add_date(line: &mut Vec<u8>, date: &[u8; 29]) -> Result<(), AllocError>
    ensures { OnOk result (line.new.items ≡ line.old.items ++ log_date date.now) }
{
    line.extend_from_slice(&date[5..7])?;
    line.extend_from_slice(b"/")?;
    line.extend_from_slice(&date[8..11])?;
    line.extend_from_slice(b"/")?;
    line.extend_from_slice(&date[12..16])?;
    line.extend_from_slice(b":")?;
    line.extend_from_slice(&date[17..25])?;
    line.extend_from_slice(b" +0000")?;
    Ok(())
}

fn add_escaped(line: &mut Vec<u8>, place: Place, bytes: &[u8]) -> Result<(), AllocError>
    ensures { OnOk result (line.new.items ≡ line.old.items ++ escaped_bytes place bytes.now) }
{
    'escaping: for byte in bytes {
        add_byte(line, place, *byte)?;
    }
    Ok(())
}

fn add_byte(line: &mut Vec<u8>, place: Place, byte: u8) -> Result<(), AllocError>
    ensures { OnOk result (line.new.items ≡ line.old.items ++ escaped_byte place byte) }
{
    if is_seen(place, byte) {
        line.push(byte)?;
        return Ok(());
    }
    line.extend_from_slice(escape_of(place))?;
    line.extend_from_slice(&[hex(byte / 16), hex(byte % 16)])?;
    Ok(())
}

// What stands before the digits of a byte that is not shown.
fn escape_of(place: Place) -> &'static [u8]
    ensures { result.now ≡ escape place }
{
    match place {
        Place::InJson => b"\\u00",
        Place::InWord | Place::InQuotes => b"\\x",
    }
}

fn is_seen(place: Place, byte: u8) -> bool
    ensures { result ≡ is_shown place byte }
{
    let least = match place {
        Place::InQuotes => 32,
        Place::InWord | Place::InJson => 33,
    };
    least <= byte && byte <= 126 && !(byte == b'"' || byte == b'\\')
}

fn hex(digit: u8) -> u8
    requires { digit < 16 }
    ensures { result ≡ hex_letter digit }
{
    if digit <= 9 { 48 + digit } else { 55 + digit }
}
