//! What follows of snapshots.
ghost use Rattle.std.specs.Prelude.{◌≡◌, ℕ, List, Ok};
ghost use Rattle.std.specs.List.{AllByRecursion};
ghost use Rattle.dav_files_core.specs.Outcomes.{start};
ghost use Rattle.dav_notes_core.specs.Noting.{Noted};
ghost use Rattle.dav_notes_core.specs.PlayedNotes.{NotesPlayed};
ghost use Rattle.dav_effects_core.specs.Records.{IsNoted};
ghost use Rattle.dav_guarded_core.specs.Stores.{Stores};
ghost use Rattle.dav_snapshots_core.specs.SnapshotReading.{snapshot_at};
ghost use Rattle.dav_snapshots_core.specs.WrittenSnapshots.{HasPaths, IsSnapshot};

/// A law for callers: a snapshot of stores is read as those stores and that moment. It does nothing (own).
pub fn snapshots_restore()
    ensures { (s : Stores) (now : ℕ) (bytes : List ℕ) → IsSnapshot s now bytes → HasPaths s.map → snapshot_at bytes ≡ Ok (s, now) }
{}

/// The law of paths (own): each path of new stores is made of segments, and so is each of the stores
/// that a snapshot gives, and each behind notes that are played, whose paths are, as those of every
/// record are. So `HasPaths`, which `snapshots_restore` asks, holds of all stores that a journal
/// keeps. It does nothing.
pub fn noted_stores_have_paths()
    ensures begins { (now : ℕ) → HasPaths (start now) }
    ensures restored { (bytes : List ℕ) (s : Stores) (now : ℕ) → snapshot_at bytes ≡ Ok (s, now)
        → HasPaths s.map }
    ensures goes_on { (s s' : Stores) (notes : List Noted) → HasPaths s.map
        → AllByRecursion IsNoted notes → NotesPlayed s notes s' → HasPaths s'.map }
{}
