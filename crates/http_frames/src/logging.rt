//! What the log is told where a turn ends a connection.
ghost use Rattle.http_frames.specs.Logging.{LogsEnd, part_code, refusal_code};
ghost use Rattle.std.specs.Prelude.{◌≡◌};

use crate::gate::AccessLog;
use http_server::{Reason, Refusal, State};

/// Tells the log where a turn left a connection that was open: it refused what came, or memory ran out for it.
pub(crate) fn log_end<L: AccessLog>(before: State, after: State, log: &mut L)
    ensures { LogsEnd L.refused L.lost before after log.old log.new }
{
    if before != State::Open {
        return;
    }
    match after {
        State::Closing(Reason::Refused(refusal)) => log.refused(code_of(refusal)),
        State::Aborted => log.lost(),
        _ => {}
    }
}

// The status of the answer by which a connection refuses what came.
fn code_of(refusal: Refusal) -> u16
    ensures { result ≡ refusal_code refusal }
{
    match refusal {
        Refusal::Unreadable(error) => error.status(),
        Refusal::InvalidPart(error) => code_of_part(error),
        Refusal::BodyTooLarge => 413,
        Refusal::UnknownCoding => 501,
        Refusal::InvalidResponse(_) => 500,
        Refusal::Truncated | Refusal::InvalidHost => 400,
    }
}

// The same, where the types of `http` don't hold a part of the head.
fn code_of_part(error: http::Error) -> u16
    ensures { result ≡ part_code error }
{
    match error {
        http::Error::HeaderName | http::Error::MaxSizeReached => 431,
        http::Error::Uri(error) if error.is_too_long() => 414,
        _ => 400,
    }
}
