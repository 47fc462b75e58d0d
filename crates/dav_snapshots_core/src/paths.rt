//! The paths of what a walk gives, by the folders that it gave before.
ghost use Rattle.std.specs.Prelude.{◌≡◌, ◌≢◌, ℕ, List, [], IfOk, OnOk};
ghost use Rattle.dav_path_core.specs.PathText.{folder_bytes};
ghost use Rattle.dav_files_core.specs.declared.memfs.Kind.TheVariants.{Folder};
ghost use Rattle.dav_snapshots_core.specs.Private.MetPaths.{AllMet, IsMet, MeetsOne, met_text};

use dav_files_core::memfs::{Kind, MemFsStored};
use std::alloc::{AllocError, Global};
use std::collections::BTreeMap;

/// The bytes of the path of each folder that was met, by the folder's number.
#[derive(Drop)]
pub(crate) struct Met {
    texts: BTreeMap<u64, Vec<u8>>,
}

impl Met {
    pub(crate) fn new(alloc: Global) -> Met
        ensures { AllMet result [] }
    {
        Met {
            texts: BTreeMap::new(alloc),
        }
    }
}

// The bytes at the number of a folder, none where it was not met.
fn met_text(met: &Met, number: u64) -> &[u8]
    ensures { result.now ≡ met_text met.now number }
{
    match met.texts.get(&number) {
        Some(text) => text.as_slice(),
        None => &[],
    }
}

// Notes these bytes at that number.
fn note_text(met: &mut Met, number: u64, text: Vec<u8>) -> Result<(), AllocError>
    ensures this { OnOk result (met_text met.new number ≡ text.items) }
    ensures others { OnOk result ((other : ℕ) → other ≢ number → met_text met.new other ≡ met_text met.old other) }
{
    met.texts.insert(number, text)?;
    Ok(())
}

/// The bytes of the path as a folder, by those of the folder that it stands in.
pub(crate) fn path_text(
    alloc: Global,
    met: &Met,
    stored: &MemFsStored<'_>,
) -> Result<Vec<u8>, AllocError>
    requires { IsMet met.now stored.now.path stored.now.folder }
    ensures { IfOk result (λ text. text.items ≡ folder_bytes stored.now.path) }
{
    let mut text = Vec::new(alloc);
    let Some(folder) = stored.folder() else {
        text.push(b'/')?;
        return Ok(text);
    };
    text.extend_from_slice(met_text(met, folder))?;
    text.extend_from_slice(stored.name())?;
    text.push(b'/')?;
    Ok(text)
}

/// Notes the path of a folder, by its bytes as a folder.
pub(crate) fn meet(
    alloc: Global,
    met: &mut Met,
    stored: &MemFsStored<'_>,
    path: &[u8],
) -> Result<(), AllocError>
    requires { path.now ≡ folder_bytes stored.now.path }
    ensures { OnOk result (MeetsOne met.old met.new stored.now) }
{
    match stored.meta().kind {
        Kind::Folder => {
            let text = Vec::from_slice(alloc, path)?;
            return note_text(met, stored.number(), text);
        }
        Kind::File => return Ok(()),
    }
}
