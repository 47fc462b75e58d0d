//! The law of commands below a folder.
ghost use Rattle.std.specs.Prelude.{◌≡◌, ℕ, Bool, true, List, Option};
ghost use Rattle.dav_path_core.specs.Fronts.{Path, is_front};
ghost use Rattle.dav_files_core.specs.declared.fs.OpenOptions.{OpenOptions};
ghost use Rattle.dav_files_core.specs.Below.{is_below, SeesBelow, TellsBelow};
ghost use Rattle.dav_files_core.specs.Describing.{metadata};
ghost use Rattle.dav_files_core.specs.ContentParts.{read_at, write_at};
ghost use Rattle.dav_files_core.specs.ResourcePutting.{put};
ghost use Rattle.dav_files_core.specs.ResourceCopying.{copy};
ghost use Rattle.dav_files_core.specs.Folders.{create_dir, remove};
ghost use Rattle.dav_files_core.specs.Listing.{read_dir};
ghost use Rattle.dav_files_core.specs.Opening.{opening};
ghost use Rattle.dav_files_core.specs.Properties.{get_prop, get_props, patch_props};
ghost use Rattle.dav_files_core.specs.Renaming.{rename};
ghost use Rattle.dav_files_core.specs.Resources.{Property};

/// The law of the resource step below a folder (RFC 4918 section 5.2): where two maps have the same entries at and below a folder, and the
/// same next number, a command on paths at or below that folder has the same reply in both, and they agree there afterwards, numbers
/// included. What a command puts, makes, removes or renames stands below the folder, and so does a copy's target; what it only looks at,
/// or changes where it is, may be the folder itself.
pub fn commands_see_below()
    ensures put { (folder p : Path) (bytes : List ℕ) (now : ℕ) → is_below folder p ≡ true → SeesBelow folder (λ m. put m p bytes now) }
    ensures write_at { (folder p : Path) (at : Option ℕ) (bytes : List ℕ) → is_front folder p ≡ true → SeesBelow folder (λ m. write_at m p at bytes) }
    ensures create_dir { (folder p : Path) (now : ℕ) → is_below folder p ≡ true → SeesBelow folder (λ m. create_dir m p now) }
    ensures remove { (folder p : Path) (now : ℕ) → is_below folder p ≡ true → SeesBelow folder (λ m. remove m p now) }
    ensures rename { (folder from to : Path) (now : ℕ) → is_below folder from ≡ true → is_below folder to ≡ true → SeesBelow folder (λ m. rename m from to now) }
    ensures copy { (folder from to : Path) (now : ℕ) → is_front folder from ≡ true → is_below folder to ≡ true → SeesBelow folder (λ m. copy m from to now) }
    ensures opening { (folder p : Path) (options : OpenOptions) (now : ℕ) → is_below folder p ≡ true → SeesBelow folder (λ m. opening m p options now) }
    ensures patch_props { (folder p : Path) (patch : List (Bool × Property)) → is_front folder p ≡ true → SeesBelow folder (λ m. patch_props m p patch) }
    ensures read_at { (folder p : Path) (at count : ℕ) → is_front folder p ≡ true → TellsBelow folder (λ m. read_at m p at count) }
    ensures read_dir { (folder p : Path) → is_front folder p ≡ true → TellsBelow folder (λ m. read_dir m p) }
    ensures metadata { (folder p : Path) → is_front folder p ≡ true → TellsBelow folder (λ m. metadata m p) }
    ensures get_props { (folder p : Path) (content : Bool) → is_front folder p ≡ true → TellsBelow folder (λ m. get_props m p content) }
    ensures get_prop { (folder p : Path) (wanted : Property) → is_front folder p ≡ true → TellsBelow folder (λ m. get_prop m p wanted) }
{}
