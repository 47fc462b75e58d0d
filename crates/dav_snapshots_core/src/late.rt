//! The moments that stand in stores and are too late, and what they become.
ghost use Rattle.std.specs.Prelude.{◌≡◌, ◌++◌, ◌∷◌, [], filter, nat_le, IfOk, OnOk};
ghost use Rattle.std.specs.List.{flat_map};
ghost use Rattle.std.specs.List.Sorted.{IsStrictlySortedBy};
ghost use Rattle.std.specs.Ordering.{nat_cmp};
ghost use Rattle.dav_snapshots_core.specs.Private.LateMoments.{AreInOrder, AreLateOf, AscendFrom, moments_at};
ghost use Rattle.dav_snapshots_core.specs.SetBack.{how_many_before, moment_set_back};

use dav_files_core::memfs::MemFsStored;
use std::alloc::{AllocError, Global};

// Adds a moment that is late.
fn add_late(moments: &mut Vec<u64>, from: u64, moment: u64) -> Result<(), AllocError>
    ensures { OnOk result (moments.new.items
        ≡ moments.old.items ++ filter (λ a. nat_le from a) (moment ∷ [])) }
{
    if moment < from {
        return Ok(());
    }
    moments.push(moment)?;
    Ok(())
}

// Adds the late ones of a folder or a file.
fn add_both(moments: &mut Vec<u64>, from: u64, stored: &MemFsStored<'_>) -> Result<(), AllocError>
    ensures { OnOk result (moments.new.items
        ≡ moments.old.items ++ filter (λ a. nat_le from a) (moments_at stored.now)) }
{
    let meta = stored.meta();
    add_late(moments, from, meta.created.0)?;
    add_late(moments, from, meta.modified.0)
}

// The late ones of all that a walk gives, behind the last moment.
fn all_late(
    alloc: Global,
    from: u64,
    last: u64,
    all: &[MemFsStored<'_>],
) -> Result<Vec<u64>, AllocError>
    ensures { IfOk result (λ moments. moments.items
        ≡ filter (λ a. nat_le from a) (last ∷ flat_map moments_at all.now)) }
{
    let mut moments = Vec::new(alloc);
    add_late(&mut moments, from, last)?;
    'adding: for stored in all {
        add_both(&mut moments, from, stored)?;
    }
    Ok(moments)
}

// Each once, the first in front.
fn in_order(moments: Vec<u64>) -> Vec<u64>
    ensures { AreInOrder moments.items result.items }
{
    let mut late = moments;
    late.sort_unstable();
    late.dedup();
    late
}

/// The moments from that one on, of these folders and files and the last one, each once, the first in front.
pub(crate) fn late_moments(
    alloc: Global,
    from: u64,
    last: u64,
    all: &[MemFsStored<'_>],
) -> Result<Vec<u64>, AllocError>
    ensures { IfOk result (λ late. AreLateOf from (last ∷ flat_map moments_at all.now) late.items) }
{
    let moments = all_late(alloc, from, last, all)?;
    Ok(in_order(moments))
}

// How many of these are before that one.
fn place_of(late: &[u64], moment: u64) -> usize
    requires { IsStrictlySortedBy nat_cmp late.now }
    ensures { result ≡ how_many_before moment late.now }
{
    match late.binary_search(&moment) {
        Ok(place) => place,
        Err(place) => place,
    }
}

/// What a moment becomes.
pub(crate) fn moment_set_back(from: u64, late: &[u64], moment: u64) -> u64
    requires { AscendFrom from late.now }
    ensures { result ≡ moment_set_back from late.now moment }
{
    if moment < from {
        return moment;
    }
    from + place_of(late, moment) as u64
}
