//! Limits of guesses, and users that change.
use crate::telling::{Still, Telling};
use bytes::Bytes;
use dav_login_core::{Fields, Login};
use dav_users_core::Users;
use http::Request;
use http_frames::gate::TurnService;
use http_header::HeaderName;
use http_server::{Response, Service};
use std::alloc::{AllocError, Global};
use std::cell::Cell;
use std::process::Abort;
use std::test::Fail;

type Guarded<'a> = Login<Telling, Still<'a>>;

const USERS: &str = "\
ann:$5$saltsalt$0IyaXrmV7.sGNS6tirgqHLqX/G.FBvgkYA.lpPdS5sA\n\
bob:$5$othersalt$rl2lEnK9jqM2yOPn44LF9pjIcHANst8vKfeJ9.VVW77\n";

const FIELD: &str = "x-forwarded-for";

// Of each row a connection, the address of its client, what is sent behind `Basic `, and the status; or how many seconds later it is.
const LIMITED: &str = "\
1 192.0.2.1 YW5uOnNlY3JldA== 200\n\
1 192.0.2.1 YW5uOjE= 401\n\
1 192.0.2.1 YW5uOjE= 401\n\
1 192.0.2.1 YW5uOjI= 401\n\
1 192.0.2.1 Ym9iOjM= 401\n\
1 192.0.2.1 ZXZlOjQ= 401\n\
1 192.0.2.1 ZXZlOjU= 401\n\
1 192.0.2.1 ZXZlOjY= 401\n\
1 192.0.2.1 ZXZlOjc= 401\n\
1 192.0.2.1 ZXZlOjg= 429\n\
2 192.0.2.1 ZXZlOjg= 429\n\
2 192.0.2.1 YW5uOjE= 401\n\
1 192.0.2.1 YW5uOjE= 401\n\
1 192.0.2.1 YW5uOnNlY3JldA== 200\n\
1 192.0.2.1 Ym9iOnDDpDpzcw== 429\n\
3 192.0.2.2 ZXZlOjY= 401\n\
3 192.0.2.2 Ym9iOnDDpDpzcw== 200\n\
1 192.0.2.1 Ym9iOnDDpDpzcw== 200\n\
later 1\n\
1 192.0.2.1 ZXZlOjk= 401\n\
1 192.0.2.1 ZXZlOjEw 429\n\
later 60\n\
1 192.0.2.1 ZXZlOjEw 401\n\
1 192.0.2.1 ZXZlOjEx 401";

// The same, where a field is chosen that tells addresses: its value stands behind a `/`, where the request has it.
const TOLD: &str = "\
1 unix/192.0.2.1 YW5uOjE= 401\n\
1 unix/192.0.2.1 YW5uOjI= 401\n\
1 unix/192.0.2.1 Ym9iOjM= 401\n\
1 unix/192.0.2.1 ZXZlOjQ= 401\n\
1 unix/192.0.2.1 ZXZlOjU= 401\n\
1 unix/192.0.2.1 ZXZlOjY= 429\n\
2 192.0.2.7/192.0.2.1 ZXZlOjY= 429\n\
2 192.0.2.7/192.0.2.2,192.0.2.1 ZXZlOjY= 429\n\
3 192.0.2.1 ZXZlOjY= 429\n\
3 192.0.2.1/, ZXZlOjY= 429\n\
1 unix/192.0.2.2 ZXZlOjY= 401\n\
1 unix/192.0.2.1,192.0.2.3 ZXZlOjc= 401\n\
1 unix ZXZlOjg= 401\n\
4 192.0.2.7 ZXZlOjg= 401\n\
1 unix/192.0.2.1 YW5uOnNlY3JldA== 429\n\
1 unix/192.0.2.2 YW5uOnNlY3JldA== 200\n\
1 unix/192.0.2.1 YW5uOnNlY3JldA== 200";

// The same, or a file of users that is listed: `same`, one in which bob's line is another, or `wrong`.
const LISTED: &str = "\
1 192.0.2.1 YW5uOnNlY3JldA== 200\n\
1 192.0.2.1 Ym9iOnDDpDpzcw== 200\n\
1 192.0.2.1 YW5uOjE= 401\n\
1 192.0.2.1 YW5uOjI= 401\n\
1 192.0.2.1 Ym9iOjM= 401\n\
1 192.0.2.1 ZXZlOjQ= 401\n\
1 192.0.2.1 ZXZlOjU= 401\n\
list wrong\n\
1 192.0.2.1 YW5uOnNlY3JldA== 200\n\
1 192.0.2.1 Ym9iOnDDpDpzcw== 200\n\
list another\n\
1 192.0.2.1 YW5uOnNlY3JldA== 200\n\
1 192.0.2.1 Ym9iOnDDpDpzcw== 401\n\
2 192.0.2.2 Ym9iOnDDpDpzcw== 401\n\
2 192.0.2.2 Ym9iOnNlY3JldA== 200\n\
list wrong\n\
1 192.0.2.1 Ym9iOnNlY3JldA== 200\n\
list same\n\
1 192.0.2.1 YW5uOnNlY3JldA== 200\n\
2 192.0.2.2 Ym9iOnNlY3JldA== 401";

// The same of addresses of one network, and of one more.
const OF_IPV4: &str = "\
1 192.0.2.1 YW5uOjE= 401\n\
1 192.0.2.1:5 YW5uOjI= 401\n\
1 192.0.2.1:65535 Ym9iOjM= 401\n\
1 ::ffff:192.0.2.1 ZXZlOjQ= 401\n\
1 [::ffff:c000:201]:5 ZXZlOjU= 401\n\
1 192.0.2.1 ZXZlOjY= 429\n\
2 192.0.2.1:6 ZXZlOjY= 429\n\
2 ::ffff:192.0.2.1 ZXZlOjY= 429\n\
2 ::FFFF:C000:201 ZXZlOjY= 429\n\
2 [::ffff:192.0.2.1] ZXZlOjY= 429\n\
2 192.0.2.2 ZXZlOjY= 401";

const OF_IPV6: &str = "\
1 2001:db8::1 YW5uOjE= 401\n\
1 2001:db8::2 YW5uOjI= 401\n\
1 [2001:db8::3]:5 Ym9iOjM= 401\n\
1 [2001:db8::3] ZXZlOjQ= 401\n\
1 2001:db8:0:0:ffff::1 ZXZlOjU= 401\n\
2 2001:db8::4 ZXZlOjY= 429\n\
2 2001:DB8:0:0:1:2:192.0.2.1 ZXZlOjY= 429\n\
2 2001:db8:0:1::1 ZXZlOjY= 401";

const OF_NONE: &str = "\
1 unix YW5uOjE= 401\n\
1 localhost YW5uOjI= 401\n\
1 192.0.2 Ym9iOjM= 401\n\
1 192.0.2.01 ZXZlOjQ= 401\n\
1 2001:db8::1::2 ZXZlOjU= 401\n\
2 192.0.2.256:5 ZXZlOjY= 429\n\
2 h:5 ZXZlOjY= 429\n\
2 192.0.2.1 ZXZlOjY= 401";

// The same of all together: who had a wrong one just now has the upper half, and each other one the rest. A right one counts among them.
const OF_ALL: &str = "\
1 192.0.2.1 YW5uOjE= 401\n\
1 192.0.2.1 YW5uOjI= 401\n\
1 192.0.2.1 Ym9iOjM= 401\n\
1 192.0.2.1 ZXZlOjQ= 401\n\
1 192.0.2.1 ZXZlOjU= 401\n\
2 192.0.2.2 YW5uOjE= 401\n\
2 192.0.2.2 YW5uOjI= 401\n\
2 192.0.2.2 Ym9iOjM= 401\n\
2 192.0.2.2 ZXZlOjQ= 401\n\
2 192.0.2.2 ZXZlOjU= 401\n\
3 192.0.2.3 YW5uOjE= 401\n\
3 192.0.2.3 YW5uOjI= 429\n\
4 192.0.2.4 YW5uOnNlY3JldA== 200\n\
5 192.0.2.5 YW5uOjE= 401\n\
6 192.0.2.6 YW5uOjE= 401\n\
7 192.0.2.7 YW5uOjE= 401\n\
8 192.0.2.8 YW5uOjE= 401\n\
9 192.0.2.9 YW5uOjE= 401\n\
10 192.0.2.10 YW5uOjE= 401\n\
11 192.0.2.11 YW5uOjE= 401\n\
12 192.0.2.12 YW5uOjE= 401\n\
13 192.0.2.13 YW5uOjE= 429\n\
14 192.0.2.14 Ym9iOnDDpDpzcw== 429\n\
14 192.0.2.14 YW5uOnNlY3JldA== 200\n\
later 1\n\
14 192.0.2.14 Ym9iOnDDpDpzcw== 200";

// The same of a name that was let in from an address, for a day.
const OF_FRIENDS: &str = "\
1 192.0.2.1 YW5uOnNlY3JldA== 200\n\
1 192.0.2.1 ZXZlOjE= 401\n\
1 192.0.2.1 ZXZlOjI= 401\n\
1 192.0.2.1 ZXZlOjM= 401\n\
1 192.0.2.1 ZXZlOjQ= 401\n\
1 192.0.2.1 ZXZlOjU= 401\n\
1 192.0.2.1 ZXZlOjY= 429\n\
1 192.0.2.1 Ym9iOnDDpDpzcw== 429\n\
1 192.0.2.1 YW5uOjE= 401\n\
1 192.0.2.1 YW5uOjI= 401\n\
later 86401\n\
1 192.0.2.1 ZXZlOjY= 401\n\
1 192.0.2.1 ZXZlOjc= 401\n\
1 192.0.2.1 ZXZlOjg= 401\n\
1 192.0.2.1 ZXZlOjk= 401\n\
1 192.0.2.1 ZXZlOjEw 401\n\
1 192.0.2.1 YW5uOjM= 429";

const ANOTHER: &str = "\
ann:$5$saltsalt$0IyaXrmV7.sGNS6tirgqHLqX/G.FBvgkYA.lpPdS5sA\n\
bob:$5$saltsalt$0IyaXrmV7.sGNS6tirgqHLqX/G.FBvgkYA.lpPdS5sA\n";

#[test]
fn guesses_are_limited(rt: HostRuntime) -> Result<(), Fail> {
    let now = Cell::new(5_000_000_000);
    let told = Cell::new(0);
    let mut login = login(rt.alloc(), &now, &told, None)?;
    play(&rt, rt.alloc(), &mut login, &now, LIMITED)
}

#[test]
fn told_addresses_are_limited(rt: HostRuntime) -> Result<(), Fail> {
    let now = Cell::new(5_000_000_000);
    let told = Cell::new(0);
    let field = HeaderName::from_static(FIELD);
    let mut login = login(rt.alloc(), &now, &told, Some(field))?;
    play(&rt, rt.alloc(), &mut login, &now, TOLD)
}

#[test]
fn networks_are_limited(rt: HostRuntime) -> Result<(), Fail> {
    let now = Cell::new(5_000_000_000);
    let told = Cell::new(0);
    for rows in [OF_IPV4, OF_IPV6, OF_NONE] {
        let mut login = login(rt.alloc(), &now, &told, None)?;
        play(&rt, rt.alloc(), &mut login, &now, rows)?;
    }
    Ok(())
}

#[test]
fn all_are_limited(rt: HostRuntime) -> Result<(), Fail> {
    let now = Cell::new(5_000_000_000);
    let told = Cell::new(0);
    let mut login = login(rt.alloc(), &now, &told, None)?;
    play(&rt, rt.alloc(), &mut login, &now, OF_ALL)
}

#[test]
fn names_have_guesses_of_their_own(rt: HostRuntime) -> Result<(), Fail> {
    let now = Cell::new(5_000_000_000);
    let told = Cell::new(0);
    let mut login = login(rt.alloc(), &now, &told, None)?;
    play(&rt, rt.alloc(), &mut login, &now, OF_FRIENDS)
}

#[test]
fn users_are_listed(rt: HostRuntime) -> Result<(), Fail> {
    let now = Cell::new(0);
    let told = Cell::new(0);
    let mut login = login(rt.alloc(), &now, &told, None)?;
    let listed = play(&rt, rt.alloc(), &mut login, &now, LISTED);
    assert!(rt; told.get() == 2);
    listed
}

fn play(
    rt: &impl Abort,
    alloc: Global,
    login: &mut Guarded<'_>,
    now: &Cell<u64>,
    rows: &str,
) -> Result<(), Fail> {
    for row in rows.lines() {
        let wanted = row.rsplit_once(' ').unwrap_or((row, row)).1;
        let answered = played(alloc, login, now, row)?;
        assert!(rt; answered.as_str() == wanted, "{row}: {answered}");
    }
    Ok(())
}

fn login<'a>(
    alloc: Global,
    now: &'a Cell<u64>,
    told: &'a Cell<u64>,
    address: Option<HeaderName>,
) -> Result<Guarded<'a>, Fail> {
    let header = HeaderName::from_static("x-user");
    let service = Telling {
        alloc,
        header: header.clone()?,
    };
    let users = Users::read(alloc, USERS.as_bytes())?;
    Ok(Login::new(
        alloc,
        service,
        Still { now, told },
        users,
        "a realm",
        Fields {
            user: header,
            address,
        },
        [7; 32],
    )?)
}

// What a row leads to: its last word, where it is no request.
fn played(
    alloc: Global,
    login: &mut Guarded<'_>,
    now: &Cell<u64>,
    row: &str,
) -> Result<String, Fail> {
    let (first, rest) = row.split_once(' ').unwrap_or((row, row));
    let last = rest.rsplit_once(' ').unwrap_or((rest, rest)).1;
    if first == "later" {
        let seconds = rest.parse::<u64>().unwrap_or(0);
        now.set(now.get().wrapping_add(seconds.wrapping_mul(1_000_000_000)));
        return Ok(String::from_str(alloc, last)?);
    }
    if first == "list" {
        login.set_users(match rest {
            "same" => USERS.as_bytes(),
            "another" => ANOTHER.as_bytes(),
            _ => b"no line\n",
        });
        return Ok(String::from_str(alloc, last)?);
    }
    let (client, sent) = rest.split_once(' ').unwrap_or((rest, rest));
    let (address, field) = client.split_once('/').unwrap_or((client, ""));
    login.begin_turn(first.parse::<u64>().unwrap_or(0), address.as_bytes(), 0);
    let token = sent.split_once(' ').unwrap_or((sent, sent)).0;
    answered(alloc, login, field, token)
}

// The status, and what a 429 lacks or has too much.
fn answered(
    alloc: Global,
    login: &mut Guarded<'_>,
    field: &str,
    token: &str,
) -> Result<String, Fail> {
    let request = request_of(alloc, field, token)?;
    called(alloc, login, &request)
}

fn request_of(alloc: Global, field: &str, token: &str) -> Result<Request<Bytes>, Fail> {
    let value = format!(in alloc; "Basic {token}")?;
    let mut request = Request::builder(alloc)
        .method("GET")
        .uri("/a")
        .header("authorization", value.as_str());
    if !field.is_empty() {
        request = request.header(FIELD, field);
    }
    Ok(request.body(Bytes::from_static(b"x"))?)
}

fn called(
    alloc: Global,
    login: &mut Guarded<'_>,
    request: &Request<Bytes>,
) -> Result<String, Fail> {
    let mut response = Response::new(alloc);
    login.call(request, &mut response)?;
    Ok(status_of(alloc, &response)?)
}

fn status_of(alloc: Global, response: &Response) -> Result<String, AllocError> {
    let mut text = format!(in alloc; "{}", response.status.as_u16())?;
    if text.as_str() != "429" {
        return Ok(text);
    }
    for (name, value) in &response.headers {
        if name.as_str() != "retry-after" || value.as_bytes() != b"1".as_slice() {
            text.push_str(name.as_str())?;
        }
    }
    if response.headers.len() != 1 || !response.body.is_empty() {
        text.push_str(" and more")?;
    }
    Ok(text)
}
