//! What stands in the line of a change before the bytes that it brought.
use crate::paths::{push_name, push_path};
use dav_files_core::fs::DavProp;
use dav_guarded_core::guarded::{Command, Request};
use dav_path_core::davpath::DavPath;
use itoa::{Buffer, Integer};
use std::alloc::{AllocError, Global};

/// The moment, the principal and the tokens, each with a blank behind it, `-` for none; and the command with its words, but for a change of properties.
pub fn change_line(alloc: Global, request: &Request) -> Result<String, AllocError> {
    let mut line = format!(in alloc; "{} ", request.now.0)?;
    push_option(&mut line, &request.principal)?;
    line.push(' ')?;
    push_tokens(&mut line, request)?;
    line.push(' ')?;
    push_command(&mut line, &request.command)?;
    Ok(line)
}

/// A property that is set or removed, as davreplay has it, without its xml. A record does not tell whether a path ended in a slash.
pub fn property_line(
    alloc: Global,
    path: &DavPath,
    is_set: bool,
    prop: &DavProp,
) -> Result<String, AllocError> {
    let mut line = String::new(alloc);
    push_named(&mut line, if is_set { "setprop" } else { "delprop" }, path)?;
    line.push(' ')?;
    push_option(&mut line, &prop.namespace)?;
    push_word(&mut line, prop.name.as_str())?;
    Ok(line)
}

fn push_tokens(line: &mut String, request: &Request) -> Result<(), AllocError> {
    if request.tokens.is_empty() {
        return line.push('-');
    }
    for (place, token) in request.tokens.iter().enumerate() {
        if place > 0 {
            line.push(',')?;
        }
        push_name(line, token.as_str().as_bytes())?;
    }
    Ok(())
}

fn push_command(line: &mut String, command: &Command) -> Result<(), AllocError> {
    match command {
        Command::Put { path, .. } => push_named(line, "put", path),
        Command::Write { path, at, .. } => {
            push_named(line, "write", path)?;
            push_number(line, at, " end")
        }
        Command::MkCol { path } => push_named(line, "mkcol", path),
        Command::Remove { path } => push_named(line, "remove", path),
        Command::Move { from, to } => push_both(line, "move", from, to),
        Command::Copy { from, to } => push_both(line, "copy", from, to),
        _ => push_lock(line, command),
    }
}

// A command of locks. No other is noted, but a change of properties, of which nothing stands here.
fn push_lock(line: &mut String, command: &Command) -> Result<(), AllocError> {
    match command {
        Command::Lock {
            path,
            timeout,
            shared,
            deep,
            ..
        } => {
            push_named(line, "lock", path)?;
            line.push_str(kind_of(*shared, *deep))?;
            push_number(line, timeout, " -")
        }
        Command::Unlock { path, token } => {
            push_named(line, "unlock", path)?;
            push_word(line, token.as_str())
        }
        Command::Refresh {
            path,
            token,
            timeout,
        } => {
            push_named(line, "refresh", path)?;
            push_word(line, token.as_str())?;
            push_number(line, timeout, " -")
        }
        _ => Ok(()),
    }
}

pub(crate) fn kind_of(is_shared: bool, is_deep: bool) -> &'static str {
    match (is_shared, is_deep) {
        (true, true) => " shared deep",
        (true, false) => " shared shallow",
        (false, true) => " exclusive deep",
        (false, false) => " exclusive shallow",
    }
}

fn push_named(line: &mut String, name: &str, path: &DavPath) -> Result<(), AllocError> {
    line.push_str(name)?;
    line.push(' ')?;
    push_path(line, path)
}

fn push_both(
    line: &mut String,
    name: &str,
    from: &DavPath,
    to: &DavPath,
) -> Result<(), AllocError> {
    push_named(line, name, from)?;
    line.push(' ')?;
    push_path(line, to)
}

// A blank, and the text as a word.
fn push_word(line: &mut String, text: &str) -> Result<(), AllocError> {
    line.push(' ')?;
    push_name(line, text.as_bytes())
}

// A blank and the number; `none` where there is none.
pub(crate) fn push_number<I: Integer + Copy>(
    line: &mut String,
    number: &Option<I>,
    none: &str,
) -> Result<(), AllocError> {
    match number {
        Some(number) => {
            line.push(' ')?;
            let mut digits = Buffer::new();
            line.push_str(digits.format(*number))
        }
        None => line.push_str(none),
    }
}

pub(crate) fn push_option(line: &mut String, text: &Option<String>) -> Result<(), AllocError> {
    match text {
        Some(text) => push_name(line, text.as_str().as_bytes()),
        None => line.push('-'),
    }
}
