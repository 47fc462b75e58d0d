//! The law of the map's shape.
ghost use Rattle.std.specs.Prelude.{◌≡◌, ℕ, Bool, List, Option, Ok};
ghost use Rattle.dav_path_core.specs.Fronts.{Path};
ghost use Rattle.dav_files_core.specs.declared.fs.OpenOptions.{OpenOptions};
ghost use Rattle.dav_files_core.specs.ResourceCopying.{copy};
ghost use Rattle.dav_files_core.specs.Folders.{create_dir, remove};
ghost use Rattle.dav_files_core.specs.OpenFiles.{write_bytes};
ghost use Rattle.dav_files_core.specs.Opening.{OpenFile, opening};
ghost use Rattle.dav_files_core.specs.ContentParts.{write_at};
ghost use Rattle.dav_files_core.specs.Properties.{patch_props};
ghost use Rattle.dav_files_core.specs.ResourcePutting.{put};
ghost use Rattle.dav_files_core.specs.Renaming.{rename};
ghost use Rattle.dav_files_core.specs.Resources.{Property, ResourceMap, IsResourceMap};

/// The law of the map's shape (RFC 4918 section 5): each command that is done leaves a resource map, in which the root is a folder, what
/// is not the root stands in a folder, no two entries have one number, and a folder has no bytes.
pub fn commands_keep_shape()
    ensures put { (m m' : ResourceMap) (p : Path) (bytes : List ℕ) (now : ℕ) → IsResourceMap m → put m p bytes now ≡ Ok (tt, m') → IsResourceMap m' }
    ensures write_at { (m m' : ResourceMap) (p : Path) (at : Option ℕ) (bytes : List ℕ) → IsResourceMap m → write_at m p at bytes ≡ Ok (tt, m') → IsResourceMap m' }
    ensures create_dir { (m m' : ResourceMap) (p : Path) (now : ℕ) → IsResourceMap m → create_dir m p now ≡ Ok (tt, m') → IsResourceMap m' }
    ensures remove { (m m' : ResourceMap) (p : Path) (now : ℕ) → IsResourceMap m → remove m p now ≡ Ok (tt, m') → IsResourceMap m' }
    ensures rename { (m m' : ResourceMap) (from to : Path) (now : ℕ) → IsResourceMap m → rename m from to now ≡ Ok (tt, m') → IsResourceMap m' }
    ensures copy { (m m' : ResourceMap) (from to : Path) (now : ℕ) → IsResourceMap m → copy m from to now ≡ Ok (tt, m') → IsResourceMap m' }
    ensures opening { (m m' : ResourceMap) (p : Path) (options : OpenOptions) (now : ℕ) (f : OpenFile) → IsResourceMap m → opening m p options now ≡ Ok (f, m') → IsResourceMap m' }
    ensures patch_props { (m m' : ResourceMap) (p : Path) (patch : List (Bool × Property)) (answers : List (ℕ × Property)) → IsResourceMap m → patch_props m p patch ≡ Ok (answers, m') → IsResourceMap m' }
    ensures write_bytes { (m m' : ResourceMap) (f f' : OpenFile) (bytes : List ℕ) → IsResourceMap m → write_bytes m f bytes ≡ Ok (tt, (f', m')) → IsResourceMap m' }
{}
