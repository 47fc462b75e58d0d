//! Properties, and what is to be done with them.
ghost use Rattle.std.specs.Prelude.{◌≡◌, ◌++◌, OnOk, map};
ghost use Rattle.dav_files_core.specs.Properties.{patch_update, property_of};
ghost use Rattle.dav_effects_core.specs.ByteForms.{each_at, each_text, times_at};
ghost use Rattle.dav_effects_core.specs.RecordReading.{patch_at, property_at};
ghost use Rattle.dav_effects_core.specs.RecordText.{patch_text, stored_property_text};
ghost use Rattle.dav_effects_core.specs.Records.{ArePatches, IsProperty};
ghost use Rattle.dav_effects_core.specs.Reads.{ReadsField};

use crate::error::ReadError;
use crate::fields::{flag_of, number_of, optional_bytes_of, optional_text_of, text_of};
use crate::putting::{put_flag, put_number, put_optional_bytes, put_optional_text, put_text};
use dav_files_core::fs::DavProp;
use std::alloc::{AllocError, Global};

/// A property: its name, prefix, namespace and xml (own). `Fault` where one of them is none.
#[tactic(auto, unfolding(crate::specs::RecordReading::property_at))]
pub fn read_property(alloc: Global, bytes: &[u8]) -> Result<(DavProp, &[u8]), ReadError>
    ensures { ReadsField (λ x. (property_of x.0, x.1.now)) result (property_at bytes.now) }
{
    let (name, rest) = text_of(alloc, bytes)?;
    let (prefix, rest) = optional_text_of(alloc, rest)?;
    let (namespace, rest) = optional_text_of(alloc, rest)?;
    let (xml, rest) = optional_bytes_of(alloc, rest)?;
    let property = DavProp {
        name,
        prefix,
        namespace,
        xml,
    };
    Ok((property, rest))
}

#[tactic(auto, unfolding(crate::specs::RecordReading::patch_at))]
fn patch_of(alloc: Global, bytes: &[u8]) -> Result<((bool, DavProp), &[u8]), ReadError>
    ensures { ReadsField (λ x. (patch_update x.0, x.1.now)) result (patch_at bytes.now) }
{
    let (sets, rest) = flag_of(bytes)?;
    let (property, rest) = read_property(alloc, rest)?;
    Ok(((sets, property), rest))
}

fn so_many_patches(
    alloc: Global,
    count: u64,
    bytes: &[u8],
) -> Result<(Vec<(bool, DavProp)>, &[u8]), ReadError>
    ensures { ReadsField (λ x. (map patch_update x.0.items, x.1.now)) result (times_at patch_at count bytes.now) }
{
    let mut patches = Vec::new(alloc);
    let mut rest = bytes;
    'reading: for _ in 0..count {
        let (patch, behind) = patch_of(alloc, rest)?;
        patches.push(patch)?;
        rest = behind;
    }
    Ok((patches, rest))
}

/// Properties that are set or removed, one after another.
#[tactic(auto, unfolding(crate::specs::ByteForms::each_at))]
pub(crate) fn patches_of(
    alloc: Global,
    bytes: &[u8],
) -> Result<(Vec<(bool, DavProp)>, &[u8]), ReadError>
    ensures { ReadsField (λ x. (map patch_update x.0.items, x.1.now)) result (each_at patch_at bytes.now) }
{
    let (count, rest) = number_of(bytes)?;
    so_many_patches(alloc, count, rest)
}

/// Puts a property: its name, prefix, namespace and xml (own). `AllocError` where there is no memory for it.
#[tactic(auto, unfolding(crate::specs::RecordText::stored_property_text))]
pub fn put_property(out: &mut Vec<u8>, property: &DavProp) -> Result<(), AllocError>
    ensures text { OnOk result (out.new.items ≡ out.old.items ++ stored_property_text (property_of property.now)) }
    ensures fits { OnOk result (IsProperty (property_of property.now)) }
{
    put_text(out, &property.name)?;
    put_optional_text(out, &property.prefix)?;
    put_optional_text(out, &property.namespace)?;
    put_optional_bytes(out, &property.xml)
}

/// Puts properties that are set or removed.
pub(crate) fn put_patches(out: &mut Vec<u8>, patches: &[(bool, DavProp)]) -> Result<(), AllocError>
    ensures text { OnOk result (out.new.items ≡ out.old.items ++ each_text patch_text (map patch_update patches.now)) }
    ensures fits { OnOk result (ArePatches (map patch_update patches.now)) }
{
    put_number(out, patches.len() as u64)?;
    'putting: for patch in patches {
        put_flag(out, patch.0)?;
        put_property(out, &patch.1)?;
    }
    Ok(())
}
