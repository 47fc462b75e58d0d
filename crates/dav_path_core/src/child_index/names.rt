//! The names of one folder's children.
ghost use Rattle.std.specs.Prelude.{◌≡◌, true, false, Some, None};
ghost use Rattle.std.specs.FinMap.{empty, get, insert, remove};

use std::alloc::Global;
use std::collections::BTreeMap;
use std::marker::Model;

/// The numbers of a folder's children, by their names.
#[derive(Debug, Drop)]
pub(super) struct Names {
    numbers: BTreeMap<Vec<u8>, u64>,
}

impl Model for Names {
    ghost use Rattle.dav_path_core.specs.ChildIndex.{NumbersByName, names_code};
    ghost use Rattle.dav_path_core.specs.Private.ChildNames.{names_of};

    ghost Value = { NumbersByName };

    ghost coded = { names_code };

    ghost view = { λ a. names_of a.numbers.entries };
}

impl Names {
    // No names.
    pub(super) fn new(alloc: Global) -> Names
        ensures { result ≡ empty }
    {
        Names {
            numbers: BTreeMap::new(alloc),
        }
    }

    // The number of the child with a name.
    pub(super) fn number_of(&self, name: &[u8]) -> Option<u64>
        ensures { result ≡ get self.now name.now }
    {
        self.numbers.get(name).copied()
    }

    // Adds a name, or answers false where it is out of memory.
    pub(super) fn add(&mut self, alloc: Global, name: &[u8], id: u64) -> bool
        ensures added { result ≡ true → self.new ≡ insert self.old name.now id }
        ensures left { result ≡ false → self.new ≡ self.old }
    {
        match name.to_vec(alloc) {
            Ok(name) => self.put(name, id),
            Err(_) => false,
        }
    }

    fn put(&mut self, name: Vec<u8>, id: u64) -> bool
        ensures added { result ≡ true → self.new ≡ insert self.old name.items id }
        ensures left { result ≡ false → self.new ≡ self.old }
    {
        match self.numbers.insert(name, id) {
            Ok(_) => return true,
            Err(_) => return false,
        }
    }

    // Takes a name out, if it is there.
    pub(super) fn take_out(&mut self, name: &[u8])
        ensures { self.new ≡ remove self.old name.now }
    {
        self.numbers.remove(name);
    }
}
