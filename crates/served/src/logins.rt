//! The login in front of a server, and its users.
use crate::fronts::Fronts;
use crate::host::System;
use crate::stopped::Stopped;
use dav_login_core::{Fields, Login};
use dav_users_core::Users;
use http_frames::frames::{Frames, Head};
use http_header::HeaderName;
use http_server::Service;
use line_streams::Fault;
use rand::make_rng;
use rand_chacha::ChaCha20Rng;
use rand_core::Rng;
use std::alloc::Global;
use std::fs;
use std::io::{self, Read, Write};

/// The field by which the server is told who has logged in (own). What a client sends under this name is dropped.
pub(crate) const USER: &str = "x-logged-in-user";

// What is told where there is no user.
const NOBODY: &str = "the file of users has no user, so nobody can log in\n";

/// The users that the first frame has (own); none where it is another, or where the input ends.
///
/// - `WrongUsers`: a line of theirs is wrong. `Stream`: the input failed, or there is no memory.
pub(crate) fn told_users<I: Read>(alloc: Global, frames: &mut Frames<I>) -> Result<Users, Stopped> {
    // A loop is proved to end, so this one counts its turns.
    for _step in 0..u64::MAX {
        if let Some(frame) = frames.next() {
            let Some(Head::Users { .. }) = frame.head else {
                return Ok(Users::read(alloc, &[])?);
            };
            let users = Users::read(alloc, frame.bytes)?;
            let length = frame.length;
            frames.skip(length);
            return Ok(users);
        }
        if !frames.read()? {
            return Ok(Users::read(alloc, &[])?);
        }
    }
    Err(Stopped::Stream(Fault::Io))
}

/// The users that the file at this path has (own).
///
/// - `NoUsers`: it can't be read. `WrongUsers`: a line of it is wrong. `Stream`: there is no memory.
pub(crate) fn read_users(rt: &HostRuntime, path: &str) -> Result<Users, Stopped> {
    let file = match fs::read(rt, path) {
        Ok(file) => file,
        Err(error) => return Err(Stopped::NoUsers(error)),
    };
    Ok(Users::read(rt.alloc(), &file)?)
}

/// Tells it where there is no user (own).
pub(crate) fn tell_of_nobody(rt: &HostRuntime, users: &Users) {
    if users.is_empty() {
        let _told = rt.stderr().write_all(NOBODY.as_bytes());
    }
}

/// The service behind a login of these users, in the realm that is chosen (RFC 7617), on the system (own). Where a header is named, a proxy tells by it where a client is.
pub(crate) fn login_over<'a, S: Service + Drop>(
    rt: &'a HostRuntime,
    users: Users,
    fronts: &mut Fronts<'_>,
    service: S,
) -> Result<Login<S, System<'a>>, Stopped> {
    let key = random_key(rt)?;
    let host = System::new(rt)?;
    let fields = Fields {
        user: HeaderName::from_static(USER),
        address: fronts.address_header.take(),
    };
    let realm = fronts.realm.as_str();
    Ok(Login::new(rt.alloc(), service, host, users, realm, fields, key)?)
}

// A key that nobody can foretell. `Err` where the system gives none.
fn random_key(rt: &HostRuntime) -> io::Result<[u8; 32]> {
    let mut key = [0; 32];
    let mut rng: ChaCha20Rng = make_rng(rt)?;
    rng.fill_bytes(&mut key);
    Ok(key)
}
