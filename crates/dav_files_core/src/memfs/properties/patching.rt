//! Patches of properties. What a patch comes to is found first, and memory is taken for what is new; making it takes none.
ghost use Rattle.std.specs.Prelude.{◌≡◌, true, false, map, Some, None, is_some, IsSome, option_map, unwrap_or, if◌then◌else◌, OnOk, IfOk, IfErr, MatchOption, ◌<◌, length};
ghost use Rattle.std.specs.Ordering.{eq_by_cmp};
ghost use Rattle.std.specs.FinMap.{get, insert, remove};
ghost use Rattle.dav_files_core.specs.Private.PropertyChanges.{Key, ComesTo, AreMissing, NotesKey, changes_of, is_among_keys};
ghost use Rattle.dav_files_core.specs.Private.PropertyMaps.{properties_of};
ghost use Rattle.dav_files_core.specs.Properties.{property_of, patch_update, patch_answer, key_of, patch_answers};
ghost use Rattle.dav_files_core.specs.Resources.{Property, key_cmp};

use super::{key_of, put_in, take_out};
use crate::fs::DavProp;
use bytes::Bytes;
use dav_path_core::errors::{FsError, FsResult};
use http::StatusCode;
use std::alloc::Global;
use std::collections::BTreeMap;

/// What a patch comes to.
#[derive(Drop)]
pub(super) struct Changes {
    // What each key of the patch has in the end.
    pub(super) last: BTreeMap<(Bytes, Bytes), Option<DavProp>>,
    // The keys that are set and have nothing yet.
    pub(super) missing: Vec<(Bytes, Bytes)>,
}

/// What a patch comes to where some properties are kept, with the answer for each of its entries.
pub(super) fn read_patch(
    alloc: Global,
    kept: &BTreeMap<(Bytes, Bytes), DavProp>,
    patch: Vec<(bool, DavProp)>,
) -> FsResult<(Vec<(StatusCode, DavProp)>, Changes)>
    ensures answers { IfOk result (λ r. map patch_answer r.0.items ≡ patch_answers (map patch_update patch.items)) }
    ensures changes { IfOk result (λ r. ComesTo (map patch_update patch.items) (changes_of r.1.last.entries)) }
    ensures missing { IfOk result (λ r. AreMissing (properties_of kept.now.entries) (changes_of r.1.last.entries) r.1.missing.items) }
    ensures err { IfErr result (λ e. e ≡ FsError.InsufficientStorage) }
{
    let mut answers = Vec::new(alloc);
    let mut changes = Changes {
        last: BTreeMap::new(alloc),
        missing: Vec::new(alloc),
    };
    for (set, prop) in patch {
        answers.push((StatusCode::OK, prop.without_xml()?))?;
        changes.note(alloc, kept, set, prop)?;
    }
    Ok((answers, changes))
}

impl Changes {
    // Notes one entry more of a patch: it takes the place of one with its key.
    fn note(
        &mut self,
        alloc: Global,
        kept: &BTreeMap<(Bytes, Bytes), DavProp>,
        set: bool,
        prop: DavProp,
    ) -> FsResult<()>
        ensures last { OnOk result (changes_of self.new.last.entries ≡ insert (changes_of self.old.last.entries) (key_of (property_of prop)) (if set then Some (property_of prop) else None)) }
        ensures missing { AreMissing (properties_of kept.now.entries) (changes_of self.old.last.entries) self.old.missing.items
            → OnOk result (AreMissing (properties_of kept.now.entries) (changes_of self.new.last.entries) self.new.missing.items) }
        ensures err { IfErr result (λ e. e ≡ FsError.InsufficientStorage) }
    {
        let key = key_of(alloc, &prop)?;
        if !set {
            return note_last(&mut self.last, key, None);
        }
        note_missing(&mut self.missing, kept, &key)?;
        note_last(&mut self.last, key, Some(prop))
    }
}

// Notes a key that is set, if nothing is kept there yet.
fn note_missing(
    missing: &mut Vec<(Bytes, Bytes)>,
    kept: &BTreeMap<(Bytes, Bytes), DavProp>,
    key: &(Bytes, Bytes),
) -> FsResult<()>
    ensures ok { OnOk result (NotesKey (properties_of kept.now.entries) missing.old.items key.now missing.new.items) }
    ensures err { IfErr result (λ e. e ≡ FsError.InsufficientStorage) }
{
    if has_key(kept, key) {
        return Ok(());
    }
    missing.push(key.clone()?)?;
    Ok(())
}

fn has_key(kept: &BTreeMap<(Bytes, Bytes), DavProp>, key: &(Bytes, Bytes)) -> bool
    ensures { result ≡ is_some (get (properties_of kept.now.entries) key.now) }
{
    kept.contains_key(key)
}

fn note_last(
    last: &mut BTreeMap<(Bytes, Bytes), Option<DavProp>>,
    key: (Bytes, Bytes),
    change: Option<DavProp>,
) -> FsResult<()>
    ensures ok { OnOk result (changes_of last.new.entries ≡ insert (changes_of last.old.entries) key (option_map property_of change)) }
    ensures err { IfErr result (λ e. e ≡ FsError.InsufficientStorage) }
{
    last.insert(key, change)?;
    Ok(())
}

/// Puts an empty property at each of some keys that have none, at all of them or at none.
pub(super) fn make_room(
    alloc: Global,
    kept: &mut BTreeMap<(Bytes, Bytes), DavProp>,
    keys: &[(Bytes, Bytes)],
) -> FsResult<()>
    requires { (q : Key) → is_among_keys keys.now q ≡ true → get (properties_of kept.old.entries) q ≡ None }
    ensures others { (q : Key) → is_among_keys keys.now q ≡ false → get (properties_of kept.new.entries) q ≡ get (properties_of kept.old.entries) q }
    ensures room { OnOk result ((q : Key) → is_among_keys keys.now q ≡ true → IsSome (get (properties_of kept.new.entries) q)) }
    ensures err { IfErr result (λ e. (e ≡ FsError.InsufficientStorage) × (properties_of kept.new.entries ≡ properties_of kept.old.entries)) }
{
    match add_empty(alloc, kept, keys) {
        Ok(()) => Ok(()),
        Err(error) => {
            take_all(kept, keys);
            Err(error)
        }
    }
}

// Puts an empty property at each of some keys. Refused, it has done so at some of them.
fn add_empty(
    alloc: Global,
    kept: &mut BTreeMap<(Bytes, Bytes), DavProp>,
    keys: &[(Bytes, Bytes)],
) -> FsResult<()>
    ensures others { (q : Key) → is_among_keys keys.now q ≡ false → get (properties_of kept.new.entries) q ≡ get (properties_of kept.old.entries) q }
    ensures room { OnOk result ((q : Key) → is_among_keys keys.now q ≡ true → IsSome (get (properties_of kept.new.entries) q)) }
    ensures err { IfErr result (λ e. e ≡ FsError.InsufficientStorage) }
{
    for key in keys {
        put_in(kept, key.clone()?, empty(alloc))?;
    }
    Ok(())
}

// A property that takes no memory.
fn empty(alloc: Global) -> DavProp {
    DavProp {
        name: String::new(alloc),
        prefix: None,
        namespace: None,
        xml: None,
    }
}

// Takes out what stands at some keys.
fn take_all(kept: &mut BTreeMap<(Bytes, Bytes), DavProp>, keys: &[(Bytes, Bytes)])
    ensures { (q : Key) → get (properties_of kept.new.entries) q ≡ if is_among_keys keys.now q then None else get (properties_of kept.old.entries) q }
{
    for key in keys {
        take_out(kept, key);
    }
}

/// Makes changes: what they set stands at a key that has something. It takes no memory.
pub(super) fn make_changes(
    kept: &mut BTreeMap<(Bytes, Bytes), DavProp>,
    mut last: BTreeMap<(Bytes, Bytes), Option<DavProp>>,
)
    requires { (q : Key) (p : Property) → get (changes_of last.entries) q ≡ Some (Some p) → IsSome (get (properties_of kept.old.entries) q) }
    ensures { (q : Key) → get (properties_of kept.new.entries) q ≡ unwrap_or (get (changes_of last.entries) q) (get (properties_of kept.old.entries) q) }
{
    while let Some((key, change)) = take_first(&mut last) {
        make_change(kept, key, change);
    }
}

fn take_first(
    last: &mut BTreeMap<(Bytes, Bytes), Option<DavProp>>,
) -> Option<((Bytes, Bytes), Option<DavProp>)>
    ensures { MatchOption result
        ((q : Key) → get (changes_of last.old.entries) q ≡ None)
        (λ e. (get (changes_of last.old.entries) e.0 ≡ Some (option_map property_of e.1))
        × (changes_of last.new.entries ≡ remove (changes_of last.old.entries) e.0)
        × (length last.new.entries < length last.old.entries)) }
{
    last.pop_first()
}

// Sets a property at a key that has one, or takes it out.
fn make_change(
    kept: &mut BTreeMap<(Bytes, Bytes), DavProp>,
    key: (Bytes, Bytes),
    change: Option<DavProp>,
)
    requires { IsSome change → IsSome (get (properties_of kept.old.entries) key) }
    ensures { (q : Key) → get (properties_of kept.new.entries) q ≡ if eq_by_cmp key_cmp q key then option_map property_of change else get (properties_of kept.old.entries) q }
{
    match change {
        Some(prop) => match put_in(kept, key, prop) {
            Ok(()) => {}
            Err(_) => unreachable!(),
        },
        None => take_out(kept, &key),
    }
}
