//! Putting a text in front of the resource tags of an `If` that begin with a slash (RFC 4918
//! section 10.4.2).
ghost use Rattle.std.specs.Prelude.{◌≡◌, [], ◌∷◌, ◌++◌, IfOk, OnOk, true, false};
ghost use Rattle.std.specs.List.{list_all};
ghost use Rattle.dav_fields_core.specs.RootedTags.{is_host_byte};
ghost use Rattle.dav_fields_core.specs.Private.TagFronts as spec;
ghost use Rattle.dav_fields_core.specs.declared.tag_fronts.Place.TheVariants as place;

use bytes::Bytes;
use http_header::HeaderValue;
use std::alloc::{AllocError, Global};

// Where a byte of an `If` stands.
#[derive(Clone, Copy)]
pub(crate) enum Place {
    // Neither in a list nor in a resource tag.
    Outside,
    // At the front of a resource tag.
    Opened,
    // In a list of conditions.
    Listed,
    // Within brackets.
    Enclosed {
        // Whether they stand in a list.
        listed: bool,
        // The byte that closes them.
        closing: u8,
        // Whether an odd number of quotes stands before it in them.
        quoted: bool,
    },
}

// Where the byte behind one within brackets stands.
fn within(listed: bool, closing: u8, quoted: bool, b: u8) -> Place
    ensures { result ≡ spec.within listed closing quoted b }
{
    if !quoted && b == closing {
        return if listed {
            Place::Listed
        } else {
            Place::Outside
        };
    }
    let quoted = if b == b'"' { !quoted } else { quoted };
    Place::Enclosed {
        listed,
        closing,
        quoted,
    }
}

fn behind_outside(b: u8) -> Place
    ensures { result ≡ spec.place_behind place.Outside b }
{
    match b {
        b'<' => Place::Opened,
        b'(' => Place::Listed,
        _ => Place::Outside,
    }
}

fn behind_listed(b: u8) -> Place
    ensures { result ≡ spec.place_behind place.Listed b }
{
    match b {
        b')' => Place::Outside,
        b'<' => within_list(b'>'),
        b'[' => within_list(b']'),
        _ => Place::Listed,
    }
}

fn within_list(closing: u8) -> Place
    ensures { result ≡ place.Enclosed true closing false }
{
    Place::Enclosed {
        listed: true,
        closing,
        quoted: false,
    }
}

// Where the byte behind this one stands.
fn place_behind(at: Place, b: u8) -> Place
    ensures { result ≡ spec.place_behind at b }
{
    match at {
        Place::Outside => behind_outside(b),
        Place::Opened => within(false, b'>', false, b),
        Place::Listed => behind_listed(b),
        Place::Enclosed {
            listed,
            closing,
            quoted,
        } => within(listed, closing, quoted, b),
    }
}

// Whether a resource tag begins here with a slash.
fn begins_path(at: Place, b: u8) -> bool
    ensures { result ≡ spec.begins_path at b }
{
    match at {
        Place::Opened => b == b'/',
        Place::Outside | Place::Listed | Place::Enclosed { .. } => false,
    }
}

// Adds a byte, with the front before it where it belongs there.
fn add_byte(whole: &mut Vec<u8>, front: &str, at: Place, b: u8) -> Result<(), AllocError>
    ensures { OnOk result (whole.new.items
        ≡ whole.old.items ++ (spec.lead front.now at b ++ (b ∷ []))) }
{
    if begins_path(at, b) {
        whole.extend_from_slice(front.as_bytes())?;
    }
    whole.push(b)?;
    Ok(())
}

fn with_fronts(alloc: Global, front: &str, bytes: &[u8]) -> Result<Vec<u8>, AllocError>
    ensures { IfOk result (λ whole. whole.items
        ≡ spec.with_fronts front.now place.Outside bytes.now) }
{
    let mut whole = Vec::new(alloc);
    let mut at = Place::Outside;
    for b in bytes {
        add_byte(&mut whole, front, at, *b)?;
        at = place_behind(at, *b);
    }
    Ok(whole)
}

fn shared(whole: Vec<u8>) -> Result<Bytes, AllocError>
    ensures { IfOk result (λ bytes. bytes ≡ whole.items) }
{
    Ok(Bytes::from_vec(whole)?)
}

/// The value with a front before each resource tag that begins with a slash.
pub(crate) fn fronted_value(
    alloc: Global,
    front: &str,
    value: &HeaderValue,
) -> Result<HeaderValue, AllocError>
    requires { list_all is_host_byte front.now ≡ true }
    ensures { IfOk result (λ whole. whole.bytes
        ≡ spec.with_fronts front.now place.Outside value.now.bytes) }
{
    let whole = with_fronts(alloc, front, value.as_bytes())?;
    Ok(HeaderValue::from_known_valid(shared(whole)?))
}
