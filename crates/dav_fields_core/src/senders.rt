//! Who sends a request, by its headers.
ghost use Rattle.std.specs.Prelude.{◌≡◌, ◌<◌, ◌⊎◌, List, [], ◌∷◌, length, map, option_map};
ghost use Rattle.std.specs.Prelude.{string_bytes, true, IfErr, IfOk, MatchOption, codes};
ghost use Rattle.std.specs.Prelude.{option_copied, option_to_list};
ghost use Rattle.std.specs.List.{list_all};
ghost use Rattle.http_header.specs.HeaderMap.{get_all};
ghost use Rattle.dav_headers_core.specs.IfValues.{Located, ReadsAs, located_list};
ghost use Rattle.dav_fields_core.specs.RequestRefusals.{RefusesPrincipal, HasBadIf};
ghost use Rattle.dav_fields_core.specs.RootedTags.{IfSays, ReadsBehind, is_host_byte};
ghost use Rattle.dav_fields_core.specs.Senders.{NamesPrincipal, Submits};
ghost use Rattle.dav_faults_core.specs.declared.faults.Fault.TheVariants as fault;

use crate::bases::{Site, front_of};
use crate::state_tokens::tokens;
use crate::tag_fronts::fronted_value;
use dav_faults_core::faults::Fault;
use dav_headers_core::davheaders::If;
use http_header::{HeaderMap, HeaderName, HeaderValue};
use std::alloc::Global;
use std::slice;

/// The principal whom a header names: none without such a header among the server's settings; else
/// the one value, as text.
///
/// `Unauthorized` where the header isn't there, is empty, or is no UTF-8; `BadRequest` where it has
/// more values than one.
pub fn principal_of(
    alloc: Global,
    headers: &HeaderMap<HeaderValue>,
    user_header: &Option<HeaderName>,
) -> Result<Option<String>, Fault>
    ensures ok { IfOk result (λ principal. NamesPrincipal user_header.now headers.now (option_map string_bytes principal)) }
    ensures err { IfErr result (λ e. (e ≡ fault.InsufficientStorage) ⊎ RefusesPrincipal user_header.now headers.now e) }
{
    let Some(name) = user_header else {
        return Ok(None);
    };
    let Some(value) = value_of(headers, name)? else {
        return Err(Fault::Unauthorized);
    };
    if value.is_empty() {
        return Err(Fault::Unauthorized);
    }
    let Ok(text) = str::from_utf8(value.as_bytes()) else {
        return Err(Fault::Unauthorized);
    };
    Ok(Some(String::from_str(alloc, text)?))
}

/// The tokens that a request submits: those of its `If`, in order, each once. `BadRequest` where its
/// `If` can't be read.
pub fn tokens_of(
    alloc: Global,
    site: &Site<'_>,
    headers: &HeaderMap<HeaderValue>,
) -> Result<Vec<String>, Fault>
    ensures ok { IfOk result (λ tokens. Submits site.now headers.now
        (map string_bytes tokens.items)) }
    ensures err { IfErr result (λ e. (e ≡ fault.InsufficientStorage)
        ⊎ ((e ≡ fault.BadRequest) × HasBadIf site.now headers.now)) }
{
    match if_of(alloc, site, headers)? {
        Some(header) => Ok(tokens(alloc, &header)?),
        None => Ok(Vec::new(alloc)),
    }
}

/// The `If` of a request, where it has one (RFC 4918 section 10.4). A resource tag that begins with
/// a slash is read as if the scheme of the server and the host of the request stood before it.
/// `BadRequest` where it can't be read, as where it has several values, or such a tag and no host.
pub fn if_of(
    alloc: Global,
    site: &Site<'_>,
    headers: &HeaderMap<HeaderValue>,
) -> Result<Option<If>, Fault>
    ensures ok { IfOk result (λ found. MatchOption found (get_all headers.now (codes "if") ≡ [])
        (λ header. IfSays site.now headers.now (map located_list header.0.items))) }
    ensures err { IfErr result (λ e. (e ≡ fault.InsufficientStorage)
        ⊎ ((e ≡ fault.BadRequest) × HasBadIf site.now headers.now)) }
{
    let Some(value) = value_of(headers, &HeaderName::from_static("if"))? else {
        return Ok(None);
    };
    Ok(Some(if_in(alloc, site, headers, value)?))
}

// What the one value of an `If` says.
fn if_in(
    alloc: Global,
    site: &Site<'_>,
    headers: &HeaderMap<HeaderValue>,
    value: &HeaderValue,
) -> Result<If, Fault>
    requires { get_all headers.now (codes "if") ≡ value.now ∷ [] }
    ensures ok { IfOk result (λ header. IfSays site.now headers.now
        (map located_list header.0.items)) }
    ensures err { IfErr result (λ e. (e ≡ fault.InsufficientStorage)
        ⊎ ((e ≡ fault.BadRequest) × HasBadIf site.now headers.now)) }
{
    match front_of(alloc, site, headers)? {
        Some(front) => if_behind(alloc, &front, value),
        None => if_alone(alloc, value),
    }
}

// What a value is read as with a front before its tags that begin with a slash.
fn if_behind(alloc: Global, front: &str, value: &HeaderValue) -> Result<If, Fault>
    requires { list_all is_host_byte front.now ≡ true }
    ensures ok { IfOk result (λ header. ReadsBehind front.now (value.now ∷ [])
        (map located_list header.0.items)) }
    ensures err { IfErr result (λ e. (e ≡ fault.InsufficientStorage) ⊎ ((e ≡ fault.BadRequest)
        × ((lists : List Located) → ¬ ReadsBehind front.now (value.now ∷ []) lists))) }
{
    let whole = fronted_value(alloc, front, value)?;
    Ok(If::decode(alloc, slice::from_ref(&whole))?)
}

// What a value is read as by itself.
fn if_alone(alloc: Global, value: &HeaderValue) -> Result<If, Fault>
    ensures ok { IfOk result (λ header. ReadsAs (value.now ∷ [])
        (map located_list header.0.items)) }
    ensures err { IfErr result (λ e. (e ≡ fault.InsufficientStorage) ⊎ ((e ≡ fault.BadRequest)
        × ((lists : List Located) → ¬ ReadsAs (value.now ∷ []) lists))) }
{
    Ok(If::decode(alloc, slice::from_ref(value))?)
}

/// The value under a name, where there is one. `BadRequest` where there are more.
pub fn value_of<'a>(
    headers: &'a HeaderMap<HeaderValue>,
    name: &HeaderName,
) -> Result<Option<&'a HeaderValue>, Fault>
    ensures ok { IfOk result (λ value. get_all headers.now name.now ≡ option_to_list (option_copied value)) }
    ensures err { IfErr result (λ e. (e ≡ fault.BadRequest) × (1 < length (get_all headers.now name.now))) }
{
    let mut values = headers.get_all(name).iter();
    let value = values.next();
    if values.next().is_some() {
        return Err(Fault::BadRequest);
    }
    Ok(value)
}
