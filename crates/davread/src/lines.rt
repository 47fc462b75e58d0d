//! Lines, each with its answer.
use crate::headers::{self, Header};
use crate::refusals::Refusal;
use crate::words::words_of;
use crate::{equality, methods, paths, xml};
use line_streams::{Fault, read_line};
use std::alloc::Global;
use std::io::{BufReader, BufWriter, Read, Write};

/// Reads `input` to its end and writes to `output` an answer for each line. What was answered is written before it waits, and before it stops.
pub fn answer_lines<I: Read + Drop, O: Write + Drop>(
    alloc: Global,
    input: I,
    output: O,
) -> Result<(), Fault> {
    let mut input = BufReader::new(alloc, input)?;
    let mut output = BufWriter::new(alloc, output)?;
    let answered = answer_each(alloc, &mut input, &mut output);
    output.flush()?;
    answered
}

// One line at a time, in one buffer.
fn answer_each<I: Read + Drop, O: Write + Drop>(
    alloc: Global,
    input: &mut BufReader<I>,
    output: &mut BufWriter<O>,
) -> Result<(), Fault> {
    let mut line = Vec::new(alloc);
    for _ in 0..u64::MAX {
        if !read_line(input, &mut line, output)? {
            return Ok(());
        }
        match answer_to(alloc, &line) {
            Ok(Some(answer)) => writeln!(output, "{answer}")?,
            Ok(None) => {}
            Err(refusal) => writeln!(output, "{refusal}")?,
        }
    }
    Ok(())
}

// None for a line without words and for a comment.
fn answer_to(alloc: Global, line: &[u8]) -> Result<Option<String>, Refusal> {
    let words = words_of(alloc, line)?;
    match words.as_slice() {
        [] => Ok(None),
        [first, ..] if first.starts_with(b"#") => Ok(None),
        [kind, rest @ ..] => Ok(Some(answer_of(alloc, kind, rest)?)),
    }
}

fn answer_of(alloc: Global, kind: &[u8], words: &[&[u8]]) -> Result<String, Refusal> {
    let Ok(kind) = str::from_utf8(kind) else {
        return Err(Refusal::Malformed);
    };
    match kind {
        "path" => path(alloc, words),
        "target" => target(alloc, words),
        "same" => same(alloc, words),
        "method" => method(alloc, words),
        "methods" => methods::methods(alloc, words),
        "xml" => document(alloc, words),
        "write" => written(alloc, words),
        "value" => value(alloc, words),
        "equal" => equal(alloc, words),
        "text" => text(alloc, words),
        name => headers::read(alloc, Header::named(name.as_bytes())?, words),
    }
}

fn path(alloc: Global, words: &[&[u8]]) -> Result<String, Refusal> {
    match words {
        [text, prefixes @ ..] => paths::path(alloc, text, prefixes),
        _ => Err(Refusal::Malformed),
    }
}

fn target(alloc: Global, words: &[&[u8]]) -> Result<String, Refusal> {
    match words {
        [text, prefixes @ ..] => paths::target(alloc, text, prefixes),
        _ => Err(Refusal::Malformed),
    }
}

fn same(alloc: Global, words: &[&[u8]]) -> Result<String, Refusal> {
    match words {
        [text, other, prefixes @ ..] => paths::same(alloc, text, other, prefixes),
        _ => Err(Refusal::Malformed),
    }
}

fn method(alloc: Global, words: &[&[u8]]) -> Result<String, Refusal> {
    match words {
        [word] => methods::method(alloc, word),
        _ => Err(Refusal::Malformed),
    }
}

fn document(alloc: Global, words: &[&[u8]]) -> Result<String, Refusal> {
    match words {
        [word] => xml::document(alloc, word),
        _ => Err(Refusal::Malformed),
    }
}

fn written(alloc: Global, words: &[&[u8]]) -> Result<String, Refusal> {
    match words {
        [b"element", word] => xml::alone(alloc, word),
        [b"xml", word] => xml::written(alloc, word),
        [kind, words @ ..] => headers::written(alloc, Header::named(kind)?, words),
        _ => Err(Refusal::Malformed),
    }
}

fn value(alloc: Global, words: &[&[u8]]) -> Result<String, Refusal> {
    match words {
        [b"etag", word] => headers::tag_of_value(alloc, word),
        _ => Err(Refusal::Malformed),
    }
}

fn equal(alloc: Global, words: &[&[u8]]) -> Result<String, Refusal> {
    match words {
        [kind, word, other] => equality::equal(alloc, Header::named(kind)?, word, other),
        _ => Err(Refusal::Malformed),
    }
}

fn text(alloc: Global, words: &[&[u8]]) -> Result<String, Refusal> {
    match words {
        [kind, word] => headers::of_text(alloc, Header::named(kind)?, word),
        _ => Err(Refusal::Malformed),
    }
}
