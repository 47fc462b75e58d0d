//! What follows from the format alone.
ghost use Rattle.journal_core.specs.JournalLaws.{FilesAreOne};
ghost use Rattle.journal_core.specs.LiveCopies.{CopiesAreWhole, RunsLiveOn};

use sqlite_disk::Disk;

/// A file stands for one list of records at most, whatever header is read in it. It does nothing.
pub fn journals_are_one()
    ensures one { FilesAreOne }
{}

/// A file in use that is copied byte by byte while it changes gives a file in use, with the records of the moment at which the last gate of the copy was read. It does nothing.
pub fn copies_are_whole()
    ensures whole { CopiesAreWhole }
{}

/// What `append` and `make_room_for` promise of the moments of a call is what `copies_are_whole` asks of a file in use. It does nothing.
pub fn runs_live_on<D: Disk, B>()
    ensures lives { RunsLiveOn D B D.Disk.seen }
{}
