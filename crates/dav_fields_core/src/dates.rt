//! Dates of moments, as texts.
ghost use Rattle.std.specs.Prelude.{◌≡◌, ◌*◌, ◌/◌, pos, string_bytes, IfOk};
ghost use Rattle.http_header.specs.FieldValue.{IsFieldValue};
ghost use Rattle.httpdate.specs.Date.{unix_secs};
ghost use Rattle.dav_fields_core.specs.Dates.{IsHttpDate, IsInternetDate};

use dav_files_core::fs::Moment;
use httpdate::{HttpDate, fmt_http_date};
use jiff_core::Timestamp;
use jiff_fmt::temporal::DateTimePrinter;
use std::alloc::{AllocError, Global};

/// The second of a moment as HTTP writes it (RFC 9110 section 5.6.7).
pub fn http_date(alloc: Global, moment: Moment) -> Result<String, AllocError>
    ensures { IfOk result (λ text. IsHttpDate (moment.0 / 1_000_000_000) (string_bytes text)) }
{
    fmt_http_date(alloc, date_of(moment))
}

/// The same, as bytes that a field can hold.
pub fn date_bytes(moment: Moment) -> [u8; 29]
    ensures date { IsHttpDate (moment.0 / 1_000_000_000) result }
    ensures held { IsFieldValue result }
{
    date_of(moment).to_bytes()
}

/// The second of a moment as RFC 3339 writes it, in UTC.
pub fn internet_date(alloc: Global, moment: Moment) -> Result<String, AllocError>
    ensures { IfOk result (λ text. IsInternetDate (moment.0 / 1_000_000_000) (string_bytes text)) }
{
    let text = DateTimePrinter::new()
        .precision(Some(0))
        .timestamp_text(timestamp_of(moment));
    String::from_str(alloc, text.as_str())
}

fn date_of(moment: Moment) -> HttpDate
    ensures { unix_secs result ≡ moment.0 / 1_000_000_000 }
{
    match HttpDate::from_unix_secs(moment.0 / 1_000_000_000) {
        Ok(date) => date,
        Err(_) => unreachable!(),
    }
}

fn timestamp_of(moment: Moment) -> Timestamp
    ensures { result.nanosecond ≡ pos (moment.0 / 1_000_000_000 * 1_000_000_000) }
{
    let seconds = moment.0 / 1_000_000_000;
    match Timestamp::from_nanosecond((seconds * 1_000_000_000) as i128) {
        Ok(timestamp) => timestamp,
        Err(_) => unreachable!(),
    }
}
