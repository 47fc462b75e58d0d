//! A handler of requests: the status of the reply to each.
ghost use Rattle.std.specs.Prelude.{◌≡◌, ◌⊎◌, false, Contains};
ghost use Rattle.http.specs.StatusCode.{IsInClass};
ghost use Rattle.dav_resource_core.specs.Lock.{Lock};
ghost use Rattle.dav_resource_core.specs.Stale.{without_stale};
ghost use Rattle.dav_resource_core.specs.Served.{request_of, refusal_of};
ghost use Rattle.dav_resource_core.specs.Step.{start_of, conflicts};
ghost use Rattle.dav_resource_core.specs.Stores.{state_of};
ghost use Rattle.dav_resource_core.specs.Requests as plain;
ghost use Rattle.uses.specs.Handling.{is_onto_itself};

use dav_resource_core::davpath::DavPath;
use dav_resource_core::errors::FsError;
use dav_resource_core::guarded::{Command, Guarded, Refusal, Reply, Request};
use http::StatusCode;
use rand_core::Rng;
use std::alloc::{AllocError, Global};

/// The status of the reply to a request (RFC 4918 section 9): 423 where a lock stands in the way, or 507 where there is no memory; but 403 to a
/// move or a copy onto its own place, which is not tried. A folder's members go before it, by requests of their own.
pub fn answer<R: Rng>(
    alloc: Global,
    stores: &mut Guarded,
    request: &Request,
    rng: &mut R,
) -> StatusCode
    ensures locked { result ≡ 423 → (lock : Lock) × Contains (conflicts (start_of (request_of request.entry.now)
        (state_of stores.old (R.stream rng.old))) (request_of request.entry.now)) lock }
    ensures in_the_way { (lock : Lock) → Contains (conflicts (start_of (request_of request.entry.now)
        (state_of stores.old (R.stream rng.old))) (request_of request.entry.now)) lock
        → is_onto_itself request.entry.now.command ≡ false → (result ≡ 423) ⊎ (result ≡ 507) }
    ensures map { (¬ IsInClass 200 result) → stores.new.map ≡ stores.old.map }
    ensures locks { (¬ IsInClass 200 result) → without_stale request.entry.now.now.0 stores.new.locks
        ≡ without_stale request.entry.now.now.0 stores.old.locks }
{
    if is_onto_itself(&request.command) {
        return StatusCode::FORBIDDEN;
    }
    let Ok(known) = known_of(alloc, stores, request, rng) else {
        return StatusCode::INSUFFICIENT_STORAGE;
    };
    match stores.apply(request, rng) {
        Ok(_reply) => done(&request.command, known),
        Err(refusal) => refused(&request.command, &refusal, known),
    }
}

// What stands at a path.
#[derive(Clone, Copy, PartialEq, Eq)]
enum Found {
    There,
    Missing,
    // Nothing, and a file stands above.
    BelowFile,
}

// What stood where a command reads, and where it writes.
#[derive(Clone, Copy)]
struct Known {
    source: Found,
    target: Found,
}

// The paths where a command reads and writes, of those whose status depends on what stands there.
fn ends_of(command: &Command) -> Option<(&DavPath, &DavPath)> {
    match command {
        Command::Put { path, .. }
        | Command::Write { path, .. }
        | Command::Read { path, .. }
        | Command::List { path }
        | Command::Meta { path }
        | Command::Remove { path }
        | Command::PatchProps { path, .. }
        | Command::GetProps { path, .. }
        | Command::GetProp { path, .. } => Some((path, path)),
        Command::Move { from, to } | Command::Copy { from, to } => Some((from, to)),
        _ => None,
    }
}

// A `Meta` of both ends of a request; it leaves the state from which the request starts.
fn known_of<R: Rng>(
    alloc: Global,
    stores: &mut Guarded,
    request: &Request,
    rng: &mut R,
) -> Result<Known, AllocError>
    ensures start { start_of (request_of request.entry.now) (state_of stores.new (R.stream rng.new))
        ≡ start_of (request_of request.entry.now) (state_of stores.old (R.stream rng.old)) }
    ensures map { stores.new.map ≡ stores.old.map }
{
    let Some((source, target)) = ends_of(&request.command) else {
        return Ok(Known {
            source: Found::Missing,
            target: Found::Missing,
        });
    };
    Ok(Known {
        source: found_at(alloc, stores, source, request, rng)?,
        target: found_at(alloc, stores, target, request, rng)?,
    })
}

// What stands at a path.
fn found_at<R: Rng>(
    alloc: Global,
    stores: &mut Guarded,
    path: &DavPath,
    request: &Request,
    rng: &mut R,
) -> Result<Found, AllocError>
    ensures start { start_of (request_of request.entry.now) (state_of stores.new (R.stream rng.new))
        ≡ start_of (request_of request.entry.now) (state_of stores.old (R.stream rng.old)) }
    ensures map { stores.new.map ≡ stores.old.map }
{
    let path = path.clone()?;
    let asked = Request {
        principal: None,
        tokens: Vec::new(alloc),
        now: request.now,
        command: Command::Meta { path },
    };
    let answer = stores.apply(&asked, rng);
    Ok(found_by(&answer))
}

fn found_by(answer: &Result<Reply, Refusal>) -> Found {
    match answer {
        Ok(_) => Found::There,
        Err(Refusal::Fs(FsError::Forbidden)) => Found::BelowFile,
        Err(_) => Found::Missing,
    }
}

// A move or a copy onto its own place (RFC 4918 sections 9.8.5 and 9.9.4).
fn is_onto_itself(command: &Command) -> bool
    ensures { result ≡ is_onto_itself command.now }
{
    match command {
        Command::Move { from, to } | Command::Copy { from, to } => from == to,
        _ => false,
    }
}

// The status of what is done (RFC 4918 section 9).
fn done(command: &Command, known: Known) -> StatusCode
    ensures { IsInClass 200 result }
{
    match command {
        Command::MkCol { .. } => StatusCode::CREATED,
        Command::Put { .. } | Command::Move { .. } | Command::Copy { .. }
            if known.target != Found::There => { StatusCode::CREATED }
        Command::Put { .. }
        | Command::Move { .. }
        | Command::Copy { .. }
        | Command::Remove { .. }
        | Command::Unlock { .. } => StatusCode::NO_CONTENT,
        Command::PatchProps { .. } | Command::GetProps { .. } => StatusCode::MULTI_STATUS,
        _ => StatusCode::OK,
    }
}

// The status of a refusal.
fn refused(command: &Command, refusal: &Refusal, known: Known) -> StatusCode
    ensures locked { result ≡ 423 → (lock : Lock) × (refusal_of refusal.now ≡ plain.Locked lock) }
    ensures shown { (lock : Lock) → refusal_of refusal.now ≡ plain.Locked lock → result ≡ 423 }
    ensures memory { refusal_of refusal.now ≡ plain.OutOfMemory → result ≡ 507 }
    ensures storage { refusal_of refusal.now ≡ plain.Fs FsError.InsufficientStorage → result ≡ 507 }
{
    match refusal {
        Refusal::Locked(_lock) => StatusCode::LOCKED,
        Refusal::OutOfMemory => StatusCode::INSUFFICIENT_STORAGE,
        Refusal::NoLock => match command {
            Command::Refresh { .. } => StatusCode::PRECONDITION_FAILED,
            _ => StatusCode::CONFLICT,
        },
        Refusal::Fs(error) => refused_by_files(command, *error, known),
    }
}

// The status of a refusal by the files: what a missing parent, a file above, and a folder in place of a file are to a client.
fn refused_by_files(command: &Command, error: FsError, known: Known) -> StatusCode
    ensures storage { error ≡ FsError.InsufficientStorage → result ≡ 507 }
    ensures not_locked { result ≡ 423 → ⊥ }
{
    match (command, error) {
        (Command::Put { .. }, FsError::Forbidden) if known.target == Found::There => {
            StatusCode::METHOD_NOT_ALLOWED
        }
        (Command::Put { .. } | Command::MkCol { .. }, FsError::NotFound | FsError::Forbidden) => {
            StatusCode::CONFLICT
        }
        (_, FsError::Forbidden) if known.source == Found::BelowFile => StatusCode::NOT_FOUND,
        (Command::Move { .. } | Command::Copy { .. }, FsError::NotFound)
            if known.source == Found::There => { StatusCode::CONFLICT }
        (Command::Move { .. } | Command::Copy { .. }, FsError::Forbidden)
            if known.target == Found::BelowFile => { StatusCode::CONFLICT }
        _ => error.status(),
    }
}

#[cfg(test)]
mod tests {
    use super::*;
    use bytes::Bytes;
    use dav_resource_core::fs::Moment;
    use rand_core::SeedableRng;
    use rand_pcg::Pcg64;
    use std::process::Abort;
    use std::test::Fail;

    // Requests in order, each with its status.
    const ROWS: &str = "put /a = 201
put /a = 204
put /a/b = 409
mkcol /a/b = 409
get /a/b = 404
delete /a/b = 404
get /a = 200
get /x = 404
put /d/x = 409
mkcol /d = 201
mkcol /d = 405
mkcol /x/y = 409
put /d = 405
delete /x = 404
move /x /y = 404
move /a /y/z = 409
move /a /a = 403
copy /a /a = 403
copy /a /a/b = 409
move /a /a/b = 409
mkcol /e = 201
move /e /e/b = 403
put /b = 201
move /e /b/c = 409
move /b/c /e/c = 404
copy /b/c /e/c = 404
copy /b /e = 403
move / /e/f = 403
delete /b = 204
delete /e = 204
move /a /d/x = 201
put /a = 201
move /a /d/x = 204
delete /d = 403
put /f = 201
lock /d = 200
put /d/x = 423
put /d/y = 423
mkcol /d/y = 423
delete /d/x = 423
move /d/x /y = 423
move /f /d/x = 423
delete /f = 204";

    fn command_of(alloc: Global, row: &str) -> Result<Command, Fail> {
        let (word, paths) = row.split_once(' ').ok_or("no path")?;
        match paths.split_once(' ') {
            Some((from, to)) => Ok(command_between(
                word,
                DavPath::new(alloc, from)?,
                DavPath::new(alloc, to)?,
            )),
            None => Ok(command_at(word, DavPath::new(alloc, paths)?).ok_or("no such word")?),
        }
    }

    fn command_between(word: &str, from: DavPath, to: DavPath) -> Command {
        match word {
            "copy" => Command::Copy { from, to },
            _ => Command::Move { from, to },
        }
    }

    fn command_at(word: &str, path: DavPath) -> Option<Command> {
        match word {
            "put" => Some(Command::Put {
                path,
                bytes: Bytes::new(),
            }),
            "get" => Some(Command::Read {
                path,
                at: 0,
                count: 9,
            }),
            "mkcol" => Some(Command::MkCol { path }),
            "delete" => Some(Command::Remove { path }),
            "lock" => Some(Command::Lock {
                path,
                owner: None,
                timeout: None,
                shared: false,
                deep: true,
            }),
            _ => None,
        }
    }

    fn plays(rt: &impl Abort, alloc: Global, stores: &mut Guarded) -> Result<(), Fail> {
        let mut rng = Pcg64::seed_from_u64(1);
        for line in ROWS.split('\n') {
            let (row, status) = line.split_once(" = ").ok_or("no status")?;
            let request = Request {
                principal: None,
                tokens: Vec::new(alloc),
                now: Moment(5),
                command: command_of(alloc, row)?,
            };
            let answer = answer(alloc, stores, &request, &mut rng).as_u16();
            assert!(rt; status.parse::<u16>() == Ok(answer), "{row}");
        }
        Ok(())
    }

    #[test]
    fn answers_requests(rt: HostRuntime) -> Result<(), Fail> {
        let mut stores = Guarded::new(rt.alloc(), Moment(0))?;
        plays(&rt, rt.alloc(), &mut stores)
    }
}
