//! The file of the store is touched before it is told that it may still be written.
ghost use Rattle.std.specs.Prelude.{IsTrue, OnOk};
ghost use Rattle.sqlite_disk.specs.Disk.{Only};
ghost use Rattle.journal_core.specs.Resting.{disk_behind};
ghost use Rattle.kept_frames.specs.Giving.{KeepsRecords, StaysSettled};
ghost use Rattle.kept_frames.specs.Touches.{AsksTouch};

use http_frames::frames::Head;
use journal_core::{Journal, JournalError};
use sqlite_disk::Disk;

/// Touches the journal's file, where the frame asks whether it may still be written (own).
pub(crate) fn touch_for<D: Disk, O>(
    head: Option<Head>,
    journal: &mut Journal<D, O>,
    output: &O,
) -> Result<(), JournalError>
    requires usable { IsTrue (D.Disk.is_usable (disk_behind journal.old)) }
    ensures keeps { KeepsRecords D.Disk.seen D.Disk.may_leave D.Disk.is_clean journal.old journal.new output.now }
    ensures stays { OnOk result (StaysSettled D.Disk.seen D.Disk.may_leave D.Disk.is_clean journal.old journal.new) }
    // Where it was asked for, all that is seen of the file is on the disk.
    ensures synced { OnOk result (AsksTouch head → Only (D.Disk.seen (disk_behind journal.new)) (D.Disk.may_leave (disk_behind journal.new))) }
    ensures usable { OnOk result (IsTrue (D.Disk.is_usable (disk_behind journal.new))) }
{
    match head {
        Some(Head::Touch) => journal.touch(output),
        _ => Ok(()),
    }
}
