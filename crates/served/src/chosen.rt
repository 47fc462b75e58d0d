//! What is chosen of a server, made of it.
use crate::fronts::Fronts;
use crate::limits::Limits;
use crate::log::LogFile;
use crate::logins::{USER, read_users, tell_of_nobody, told_users};
use crate::stopped::Stopped;
use crate::streams::Streams;
use dav_handler_core::conditions::Scheme;
use dav_handler_core::dav::Settings;
use dav_users_core::Users;
use http_frames::frames::Frames;
use http_header::HeaderName;
use line_streams::Fault;
use server_choices::{Choices, LogFormat};
use std::alloc::AllocError;
use std::io::Read;
use std::mem;
use turn_fronts::{Format, Notes};

/// What the server tells. Where users log in, it is told by a field of its own who did.
pub(crate) fn chosen_settings(rt: &HostRuntime, choices: &mut Choices) -> Settings {
    let user_header = if choices.logs_in() {
        Some(HeaderName::from_static(USER))
    } else {
        choices.user_header.take()
    };
    Settings {
        scheme: if choices.https {
            Scheme::Https
        } else {
            Scheme::Http
        },
        prefix: mem::replace(&mut choices.prefix, String::new(rt.alloc())),
        user_header,
        longest_timeout: choices.longest_timeout,
        finite_depth: choices.finite_depth,
    }
}

/// No client yet, and the streams of their frames. `Io` where the system gives no random keys.
pub(crate) fn chosen_streams<I: Drop, O: Drop>(
    rt: &HostRuntime,
    choices: &Choices,
    frames: Frames<I>,
    output: O,
) -> Result<Streams<I, O>, Fault> {
    let clients = Limits::of(choices).clients(rt)?;
    Ok(Streams {
        clients,
        frames,
        output,
    })
}

/// What stands in front of the server. The users who may log in come by the first frame or by a file.
pub(crate) fn chosen_fronts<'a, I: Read>(
    rt: &'a HostRuntime,
    choices: &mut Choices,
    frames: &mut Frames<I>,
) -> Result<Fronts<'a>, Stopped> {
    let mut fronts = Fronts {
        read_only: choices.read_only,
        users: None,
        realm: mem::replace(&mut choices.realm, String::new(rt.alloc())),
        user_header: None,
        address_header: None,
        log: None,
    };
    set_fronts(rt, choices, frames, &mut fronts)?;
    Ok(fronts)
}

fn set_fronts<'a, I: Read>(
    rt: &'a HostRuntime,
    choices: &mut Choices,
    frames: &mut Frames<I>,
    fronts: &mut Fronts<'a>,
) -> Result<(), Stopped> {
    fronts.users = chosen_users(rt, choices, frames)?;
    if let Some(users) = &fronts.users {
        tell_of_nobody(rt, users);
    }
    fronts.user_header = chosen_user_header(choices)?;
    fronts.log = chosen_log(rt, choices)?;
    fronts.address_header = choices.address_header.take();
    Ok(())
}

fn chosen_users<I: Read>(
    rt: &HostRuntime,
    choices: &Choices,
    frames: &mut Frames<I>,
) -> Result<Option<Users>, Stopped> {
    if choices.login {
        return Ok(Some(told_users(rt.alloc(), frames)?));
    }
    match &choices.users {
        Some(path) => Ok(Some(read_users(rt, path.as_str())?)),
        None => Ok(None),
    }
}

// Where users log in, a header of the server's own names them, and no other is chosen.
fn chosen_user_header(choices: &Choices) -> Result<Option<HeaderName>, AllocError> {
    if choices.logs_in() {
        return Ok(Some(HeaderName::from_static(USER)));
    }
    copied(&choices.user_header)
}

fn chosen_log<'a>(
    rt: &'a HostRuntime,
    choices: &mut Choices,
) -> Result<Option<Notes<LogFile<'a>>>, Stopped> {
    let Some(name) = choices.log.take() else {
        return Ok(None);
    };
    let file = LogFile::open(rt, name, choices.clock)?;
    let address_header = copied(&choices.address_header)?;
    Ok(Some(Notes::new(
        rt.alloc(),
        file,
        format_of(choices.log_format),
        address_header,
    )))
}

fn format_of(chosen: LogFormat) -> Format {
    match chosen {
        LogFormat::Common => Format::Common,
        LogFormat::Combined => Format::Combined,
        LogFormat::Json => Format::Json,
    }
}

fn copied(name: &Option<HeaderName>) -> Result<Option<HeaderName>, AllocError> {
    match name {
        Some(name) => Ok(Some(name.clone()?)),
        None => Ok(None),
    }
}
