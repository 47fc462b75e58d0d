//! The properties of a folder or a file.
ghost use Rattle.std.specs.Prelude.{◌≡◌, ◌++◌, length, map, IfOk, OnOk};
ghost use Rattle.std.specs.List.{AllByRecursion};
ghost use Rattle.dav_files_core.specs.Properties.{property_of};
ghost use Rattle.dav_effects_core.specs.ByteForms.{FitsInEight, each_at, each_text, times_at};
ghost use Rattle.dav_effects_core.specs.RecordReading.{property_at};
ghost use Rattle.dav_effects_core.specs.RecordText.{stored_property_text};
ghost use Rattle.dav_effects_core.specs.Records.{IsProperty};
ghost use Rattle.dav_effects_core.specs.Reads.{ReadsField};

use dav_effects_core::error::ReadError;
use dav_effects_core::fields::number_of;
use dav_effects_core::properties::{put_property, read_property};
use dav_effects_core::putting::put_number;
use dav_files_core::fs::DavProp;
use dav_files_core::memfs::MemFsProps;
use std::alloc::{AllocError, Global};

// All that are lent.
fn lent_properties<'a>(alloc: Global, props: MemFsProps<'a>) -> Result<Vec<&'a DavProp>, AllocError>
    ensures { IfOk result (λ lent. map (λ p. property_of p.now) lent.items ≡ props.entry) }
{
    let mut lent = Vec::new(alloc);
    'adding: for prop in props {
        lent.push(prop)?;
    }
    Ok(lent)
}

// How many there are, and each.
fn put_lent(out: &mut Vec<u8>, props: &[&DavProp]) -> Result<(), AllocError>
    ensures text { OnOk result (out.new.items
        ≡ out.old.items ++ each_text stored_property_text (map (λ p. property_of p.now) props.now)) }
    ensures few { OnOk result (FitsInEight (length (map (λ p. property_of p.now) props.now))) }
    ensures fits { OnOk result (AllByRecursion IsProperty (map (λ p. property_of p.now) props.now)) }
{
    put_number(out, props.len() as u64)?;
    'putting: for prop in props {
        put_property(out, prop)?;
    }
    Ok(())
}

/// Puts how many properties there are, and each.
pub(crate) fn put_properties(
    alloc: Global,
    out: &mut Vec<u8>,
    props: MemFsProps<'_>,
) -> Result<(), AllocError>
    ensures text { OnOk result (out.new.items ≡ out.old.items ++ each_text stored_property_text props.entry) }
    ensures few { OnOk result (FitsInEight (length props.entry)) }
    ensures fits { OnOk result (AllByRecursion IsProperty props.entry) }
{
    let lent = lent_properties(alloc, props)?;
    put_lent(out, &lent)
}

// So many properties.
fn so_many_properties(
    alloc: Global,
    count: u64,
    bytes: &[u8],
) -> Result<(Vec<DavProp>, &[u8]), ReadError>
    ensures { ReadsField (λ x. (map property_of x.0.items, x.1.now)) result (times_at property_at count bytes.now) }
{
    let mut props = Vec::new(alloc);
    let mut rest = bytes;
    'reading: for _ in 0..count {
        let (prop, behind) = read_property(alloc, rest)?;
        props.push(prop)?;
        rest = behind;
    }
    Ok((props, rest))
}

/// Properties, one after another.
#[tactic(auto, unfolding(dav_effects_core::specs::ByteForms::each_at))]
pub(crate) fn properties_of(alloc: Global, bytes: &[u8]) -> Result<(Vec<DavProp>, &[u8]), ReadError>
    ensures { ReadsField (λ x. (map property_of x.0.items, x.1.now)) result (each_at property_at bytes.now) }
{
    let (count, rest) = number_of(bytes)?;
    so_many_properties(alloc, count, rest)
}
