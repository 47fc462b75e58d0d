//! The property that keeps a time of the source.
ghost use Rattle.std.specs.Prelude.{◌≡◌, codes, decimal, IfOk, string_bytes};
ghost use Rattle.dav_files_core.specs.Properties.{property_of};
ghost use Rattle.store_changes.specs.ImportedEntries.{time_property, time_xml};

use dav_files_core::fs::DavProp;
use dav_guarded_core::fs::Moment;
use std::alloc::{AllocError, Global};

/// The namespace of what an import keeps (own).
pub const NAMESPACE: &str = "urn:dav-resource-core:import";

/// The name of the property that keeps a time of the source (own).
pub const NAME: &str = "modified";

// The bytes of its element in front of the time, and behind it: those that a server writes of one that it keeps.
const FRONT: &str =
    "<n:modified xmlns:D=\"DAV:\" xmlns=\"\" xmlns:n=\"urn:dav-resource-core:import\">";

const END: &str = "</n:modified>";

/// The property that keeps this time, in nanoseconds since 1970. `AllocError` where there is no memory for it.
pub(crate) fn time_property(alloc: Global, modified: Moment) -> Result<DavProp, AllocError>
    ensures { IfOk result (λ prop. property_of prop ≡ time_property modified.0) }
{
    Ok(DavProp {
        name: String::from_str(alloc, NAME)?,
        prefix: None,
        namespace: Some(String::from_str(alloc, NAMESPACE)?),
        xml: Some(time_xml(alloc, modified.0)?.into_bytes()),
    })
}

fn time_xml(alloc: Global, modified: u64) -> Result<String, AllocError>
    ensures { IfOk result (λ text. string_bytes text ≡ time_xml modified) }
{
    format!(in alloc; "{FRONT}{modified}{END}")
}

/// The time that a property keeps, where it is this one and has been kept by an import (own).
pub fn time_of(prop: &DavProp) -> Option<Moment> {
    if prop.name.as_str() != NAME || !is_ours(&prop.namespace) {
        return None;
    }
    let xml = std::str::from_utf8(prop.xml.as_ref()?).ok()?;
    let digits = xml.strip_prefix(FRONT)?.strip_suffix(END)?;
    Some(Moment(digits.parse().ok()?))
}

fn is_ours(namespace: &Option<String>) -> bool {
    match namespace {
        Some(namespace) => namespace.as_str() == NAMESPACE,
        None => false,
    }
}
