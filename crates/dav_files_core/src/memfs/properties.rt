//! Properties that are kept in memory.
ghost use Rattle.std.specs.Prelude.{◌≡◌, map, None, option_map, option_and_then, OnOk, OnErr, IfErr, MatchResult};
ghost use Rattle.std.specs.Option.{ok_or};
ghost use Rattle.std.specs.Ordering.{is_eq};
ghost use Rattle.std.specs.FinMap.{empty, get, insert, remove, values};
ghost use Rattle.dav_files_core.specs.Private.PropertyMaps.{properties_of};
ghost use Rattle.dav_path_core.specs.StoreAnswers.{AnswersAs, TellsOutcome};
ghost use Rattle.dav_path_core.specs.Segments.{segments};
ghost use Rattle.dav_files_core.specs.Properties.{property_of, patch_update, patch_answer, key_of, patched_by, patched_properties, patch_answers, patch_props, shown_property, get_props, xml_of, get_prop};
ghost use Rattle.dav_files_core.specs.Resources.{IsResourceMap, key_cmp};
ghost use Rattle.dav_files_core.specs.Restoring.{properties_from};

mod patching;

use crate::fs::DavProp;
use bytes::Bytes;
use dav_path_core::errors::{FsError, FsResult};
use http::StatusCode;
use patching::{make_changes, make_room, read_patch};
use std::alloc::{AllocError, Global};
use std::collections::BTreeMap;
use std::collections::btree_map::Values;
use std::marker::Model;

/// The properties of a folder or a file, by namespace and name.
#[derive(Debug, Drop)]
pub(super) struct Props {
    map: BTreeMap<(Bytes, Bytes), DavProp>,
}

impl Model for Props {
    ghost use Rattle.dav_files_core.specs.Resources.{Properties};
    ghost use Rattle.dav_files_core.specs.ResourceCodes.{coded_properties};
    ghost use Rattle.dav_files_core.specs.Private.PropertyMaps.{AreKeyed, properties_of};

    ghost Value = { Properties };

    ghost coded = { coded_properties };

    ghost view = { λ a. properties_of a.map.entries };

    ghost invariant = { λ a. AreKeyed (properties_of a.map.entries) };
}

/// The same properties, or out of memory.
impl Clone for Props {
    ghost is_clone = { λ props copy. copy ≡ props };

    fn clone(&self) -> Result<Props, AllocError> {
        Ok(Props {
            map: self.map.clone()?,
        })
    }
}

impl Props {
    // None.
    pub(super) fn new(alloc: Global) -> Props
        ensures { result ≡ empty }
    {
        Props {
            map: BTreeMap::new(alloc),
        }
    }

    // Those, each at its namespace and name, in place of one before it there.
    pub(super) fn from_list(alloc: Global, list: Vec<DavProp>) -> FsResult<Props>
        ensures { MatchResult result (λ props. props ≡ properties_from (map property_of list.items)) (λ e. e ≡ FsError.InsufficientStorage) }
    {
        let mut map = BTreeMap::new(alloc);
        for prop in list {
            let key = key_of(alloc, &prop)?;
            put_in(&mut map, key, prop)?;
        }
        Ok(Props { map })
    }

    // Sets and removes, one after another, and answers for each, all or none.
    pub(super) fn patch(
        &mut self,
        alloc: Global,
        patch: Vec<(bool, DavProp)>,
    ) -> FsResult<Vec<(StatusCode, DavProp)>>
        ensures answer { MatchResult result (λ v. map patch_answer v.items ≡ patch_answers (map patch_update patch.items)) (λ e. e ≡ FsError.InsufficientStorage) }
        ensures ok { OnOk result (self.new ≡ patched_properties self.old (map patch_update patch.items)) }
        ensures err { OnErr result (self.new ≡ self.old) }
    {
        let (answers, changes) = read_patch(alloc, &self.map, patch)?;
        make_room(alloc, &mut self.map, changes.missing.as_slice())?;
        make_changes(&mut self.map, changes.last);
        Ok(answers)
    }

    // Each, with its xml or without, by the bytes of namespace and name.
    pub(super) fn list(&self, alloc: Global, content: bool) -> FsResult<Vec<DavProp>>
        ensures { MatchResult result (λ v. map property_of v.items ≡ map (shown_property content) (values self.now)) (λ e. e ≡ FsError.InsufficientStorage) }
    {
        let mut listed = Vec::new(alloc);
        for prop in self.map.values() {
            listed.push(shown(prop, content)?)?;
        }
        Ok(listed)
    }

    // All, lent, by the bytes of namespace and name.
    pub(super) fn lent(&self) -> MemFsProps<'_>
        ensures props { result ≡ values self.now }
        ensures whole { properties_from result ≡ self.now }
    {
        MemFsProps {
            values: self.map.values(),
        }
    }

    // The xml of the one with the namespace and name of another.
    pub(super) fn xml_of(&self, alloc: Global, wanted: &DavProp) -> FsResult<Vec<u8>>
        ensures { TellsOutcome (λ v. v.items) result (ok_or (xml_of self.now (property_of wanted.now)) FsError.NotFound) }
    {
        match key_of(alloc, wanted) {
            Ok(key) => copy_of_xml(alloc, found_in(&self.map, &key)),
            Err(_) => copy_of_xml(alloc, walked_to(&self.map, wanted)),
        }
    }
}

/// The properties of an entry, lent, by the bytes of namespace and name.
#[derive(Drop)]
pub struct MemFsProps<'a> {
    values: Values<'a, (Bytes, Bytes), DavProp>,
}

impl<'a> Model for MemFsProps<'a> {
    ghost use Rattle.std.specs.Prelude.{List, map};
    ghost use Rattle.dav_files_core.specs.Properties.{property_of};
    ghost use Rattle.dav_files_core.specs.Resources.{Property};

    ghost Value = { List Property };

    ghost view = { λ p. map property_of p.values };
}

impl<'a> Iterator for MemFsProps<'a> {
    ghost use Rattle.std.specs.Iterator.{YieldsFirstBy, item_count};
    ghost use Rattle.dav_files_core.specs.Properties.{property_of};

    type Item = &'a DavProp;

    ghost next_gives = { YieldsFirstBy (λ p. property_of p.now) (λ p. p) };

    ghost remaining = { item_count (λ p. p) };

    fn next(&mut self) -> Option<&'a DavProp> {
        self.values.next()
    }
}

// The property at a key.
fn found_in<'a>(
    map: &'a BTreeMap<(Bytes, Bytes), DavProp>,
    key: &(Bytes, Bytes),
) -> Option<&'a DavProp>
    ensures { option_map (λ p. property_of p.now) result ≡ get (properties_of map.now.entries) key.now }
{
    map.get(key)
}

// The property with the namespace and name of another, looked for without memory, one after another.
fn walked_to<'a>(
    map: &'a BTreeMap<(Bytes, Bytes), DavProp>,
    wanted: &DavProp,
) -> Option<&'a DavProp>
    ensures { option_map (λ p. property_of p.now) result ≡ get (properties_of map.now.entries) (key_of (property_of wanted.now)) }
{
    let namespace = namespace_of(wanted);
    let name = wanted.name.as_str().as_bytes();
    for (key, prop) in map.iter() {
        if is_key(key, namespace, name) {
            return Some(prop);
        }
    }
    None
}

// Whether a key has this namespace and name.
fn is_key(key: &(Bytes, Bytes), namespace: &[u8], name: &[u8]) -> bool
    ensures { result ≡ is_eq (key_cmp (namespace.now, name.now) key.now) }
{
    let by_name = name.cmp(key.1.as_slice());
    namespace.cmp(key.0.as_slice()).then(by_name).is_eq()
}

// A copy of the xml of a property, if it is there and has one.
fn copy_of_xml(alloc: Global, prop: Option<&DavProp>) -> FsResult<Vec<u8>>
    ensures { TellsOutcome (λ v. v.items) result (ok_or (option_and_then (λ p. p.xml) (option_map (λ p. property_of p.now) prop.entry)) FsError.NotFound) }
{
    let Some(prop) = prop else {
        return Err(FsError::NotFound);
    };
    let Some(xml) = &prop.xml else {
        return Err(FsError::NotFound);
    };
    Ok(xml.as_slice().to_vec(alloc)?)
}

// Puts a property at its key, in place of one that is there; that takes no memory.
fn put_in(
    map: &mut BTreeMap<(Bytes, Bytes), DavProp>,
    key: (Bytes, Bytes),
    prop: DavProp,
) -> FsResult<()>
    ensures ok { OnOk result (properties_of map.new.entries ≡ insert (properties_of map.old.entries) key (property_of prop)) }
    ensures absent { OnErr result (get (properties_of map.old.entries) key ≡ None) }
    ensures err { IfErr result (λ e. (e ≡ FsError.InsufficientStorage) × (properties_of map.new.entries ≡ properties_of map.old.entries)) }
{
    match map.insert(key, prop) {
        Ok(_) => Ok(()),
        Err(_) => Err(FsError::InsufficientStorage),
    }
}

// Takes the property at a key out, if there is one.
fn take_out(map: &mut BTreeMap<(Bytes, Bytes), DavProp>, key: &(Bytes, Bytes))
    ensures { properties_of map.new.entries ≡ remove (properties_of map.old.entries) key.now }
{
    let _old = map.remove(key);
}

// A property with its xml, or without.
fn shown(prop: &DavProp, content: bool) -> FsResult<DavProp>
    ensures { MatchResult result (λ p. property_of p ≡ shown_property content (property_of prop.now)) (λ e. e ≡ FsError.InsufficientStorage) }
{
    if content {
        return Ok(prop.clone()?);
    }
    prop.without_xml()
}

// What tells a property from others: its namespace, empty where it has none, and its name.
fn key_of(alloc: Global, prop: &DavProp) -> FsResult<(Bytes, Bytes)>
    ensures { MatchResult result (λ key. key ≡ key_of (property_of prop.now)) (λ e. e ≡ FsError.InsufficientStorage) }
{
    let namespace = Bytes::copy_from_slice(alloc, namespace_of(prop))?;
    let name = Bytes::copy_from_slice(alloc, prop.name.as_str().as_bytes())?;
    Ok((namespace, name))
}

// The bytes of a property's namespace.
fn namespace_of(prop: &DavProp) -> &[u8]
    ensures { result.now ≡ (key_of (property_of prop.now)).0 }
{
    match &prop.namespace {
        Some(namespace) => namespace.as_str().as_bytes(),
        None => b"",
    }
}
