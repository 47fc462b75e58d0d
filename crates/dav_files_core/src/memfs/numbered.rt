//! What is open, by the number of its entry.
ghost use Rattle.std.specs.Prelude.{◌≡◌, ◌+◌, ◌<◌, ◌^◌, length, IfOk};
ghost use Rattle.dav_path_core.specs.StoreAnswers.{TellsOutcome};
ghost use Rattle.dav_files_core.specs.Exactly.{TellsExactly};
ghost use Rattle.dav_files_core.specs.Resources.{IsResourceMap};
ghost use Rattle.dav_files_core.specs.Private.Numbered.{node_with, file_with, part_with, length_with};

use super::MemFs;
use super::nodes::{Node, node_of};
use bytes::Bytes;
use dav_path_core::errors::{FsError, FsResult};

impl MemFs {
    // The node of the entry with a number. `NotFound` where it is gone.
    pub(super) fn node_with(&self, number: u64) -> FsResult<&Node>
        ensures answer { TellsExactly (λ node. node.now) result (node_with self.now number) }
        ensures shape { IsResourceMap self.now }
    {
        node_of(&self.tree, number)
    }

    // The same of a file. `Forbidden` where it became a folder.
    fn file_with(&self, number: u64) -> FsResult<&Node>
        ensures answer { TellsExactly (λ node. node.now) result (file_with self.now number) }
        ensures shape { IsResourceMap self.now }
    {
        let node = self.node_with(number)?;
        if !node.is_file() {
            return Err(FsError::Forbidden);
        }
        Ok(node)
    }

    // How many bytes a file has.
    pub(super) fn length_of(&self, number: u64) -> FsResult<usize>
        ensures answer { result ≡ length_with self.now number }
        ensures shape { IsResourceMap self.now }
    {
        let node = self.file_with(number)?;
        Ok(node.content.len())
    }

    // Some bytes of a file, `count` at most, from `at` on.
    pub(super) fn part(&self, number: u64, at: usize, count: usize) -> FsResult<Bytes>
        ensures answer { TellsOutcome (λ b. b) result (part_with self.now number at count) }
        ensures fits { IfOk result (λ b. at + length b < 2 ^ 64) }
    {
        let node = self.file_with(number)?;
        node.content.part(self.alloc, at, count)
    }
}
