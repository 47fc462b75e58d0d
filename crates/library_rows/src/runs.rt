//! Runs of requests: each is answered, also behind a refusal.
use bytes::Bytes;
use dav_files_core::fs::Moment;
use dav_path_core::davpath::DavPath;
use dav_path_core::errors::FsError;
use dav_resource_core::guarded::{Command, Guarded, Refusal, Reply, Request};
use rand_core::SeedableRng;
use rand_pcg::Pcg64;
use std::alloc::{AllocError, Global};
use std::test::Fail;

type Answer = Result<Reply, Refusal>;

// The call in a function of its own: those above need none of what is proved of it.
fn run(stores: &mut Guarded, requests: &[Request]) -> Result<Vec<Answer>, AllocError> {
    stores.run(requests, &mut Pcg64::seed_from_u64(1))
}

fn request(alloc: Global, command: Command) -> Request {
    Request {
        principal: None,
        tokens: Vec::new(alloc),
        now: Moment(5),
        command,
    }
}

fn put(alloc: Global) -> Result<Request, Fail> {
    let path = DavPath::new(alloc, "/a")?;
    let bytes = Bytes::copy_from_slice(alloc, b"abc")?;
    Ok(request(alloc, Command::Put { path, bytes }))
}

fn read(alloc: Global, path: &str) -> Result<Request, Fail> {
    let path = DavPath::new(alloc, path)?;
    let (at, count) = (1, 9);
    Ok(request(alloc, Command::Read { path, at, count }))
}

// So many puts, each with two reads behind it, of which the first is refused.
fn requests(alloc: Global, count: usize) -> Result<Vec<Request>, Fail> {
    let mut requests = Vec::new(alloc);
    for _ in 0..count {
        requests.push(put(alloc)?)?;
        requests.push(read(alloc, "/x")?)?;
        requests.push(read(alloc, "/a")?)?;
    }
    Ok(requests)
}

// Whether an answer is the one of its place.
fn is_in_turn(place: usize, answer: &Answer) -> bool {
    match answer {
        Ok(Reply::Done) => place % 3 == 0,
        Err(Refusal::Fs(FsError::NotFound)) => place % 3 == 1,
        Ok(Reply::Bytes(bytes)) => place % 3 == 2 && bytes.as_slice() == b"bc".as_slice(),
        _ => false,
    }
}

// What a run of so many turns is answered.
fn answers(alloc: Global, count: usize) -> Result<Vec<Answer>, Fail> {
    let mut stores = Guarded::new(alloc, Moment(0))?;
    let requests = requests(alloc, count)?;
    Ok(run(&mut stores, &requests)?)
}

// How many answers come, up to one that is wrong.
fn right(answers: &[Answer]) -> usize {
    for (place, answer) in answers.iter().enumerate() {
        if !is_in_turn(place, answer) {
            return place;
        }
    }
    answers.len()
}

#[test]
fn runs_go_on_after_a_refusal(rt: HostRuntime) -> Result<(), Fail> {
    for (count, wanted) in [(0, 0), (1, 3), (5_000, 15_000)] {
        assert_eq!(rt; right(&answers(rt.alloc(), count)?), wanted);
    }
    Ok(())
}
