//! Laws of the conditions of HTTP, for callers.
ghost use Rattle.std.specs.Prelude.{◌≡◌, ◌↔◌, ℕ, true, false, List, [], Some, codes};
ghost use Rattle.std.specs.List.{list_all};
ghost use Rattle.http_header.specs.FieldValue.{FieldValue};
ghost use Rattle.http_header.specs.HeaderMap.{Entries, get_all};
ghost use Rattle.dav_path_core.specs.declared.util.DavMethod.{DavMethod};
ghost use Rattle.dav_fields_core.specs.declared.etags.Standing.{Standing};
ghost use Rattle.dav_fields_core.specs.declared.preconditions.Course.TheVariants.{Proceed, NotModified, Whole};
ghost use Rattle.dav_fields_core.specs.ListedTags.{elements, is_listed_element};
ghost use Rattle.dav_fields_core.specs.TagGrammar.{ReadsAsTags};
ghost use Rattle.dav_fields_core.specs.Preconditions.{course_of, is_get, is_get_or_head, is_missing};

/// The law that a request without one of the five headers is held off by none. It does nothing.
pub fn nothing_asked_goes_on()
    ensures { (m : DavMethod) (standing : Standing) (headers : Entries FieldValue) → get_all headers (codes "if-match") ≡ []
        → get_all headers (codes "if-unmodified-since") ≡ [] → get_all headers (codes "if-none-match") ≡ []
        → get_all headers (codes "if-modified-since") ≡ [] → get_all headers (codes "if-range") ≡ []
        → course_of m standing headers ≡ Some Proceed }
{}

/// The law that 304 comes to GET and HEAD alone (RFC 9110 section 13.2.2). It does nothing.
pub fn reads_alone_are_not_modified()
    ensures { (m : DavMethod) (standing : Standing) (headers : Entries FieldValue) → course_of m standing headers ≡ Some NotModified
        → is_get_or_head m ≡ true }
{}

/// The law that the whole comes in place of a part to a GET for a part alone (RFC 9110 section 13.1.5). It does nothing.
pub fn parts_alone_become_whole()
    ensures { (m : DavMethod) (standing : Standing) (headers : Entries FieldValue) → course_of m standing headers ≡ Some Whole
        → (is_get m ≡ true) × (is_missing (get_all headers (codes "range")) ≡ false) }
{}

/// The law that the elements of a list of tags are those of the grammar of RFC 9110 sections 5.6.1 and 8.8.3. It does nothing.
pub fn tags_are_read_by_their_grammar()
    ensures { (whole : List ℕ) (es : List (List ℕ)) → ReadsAsTags whole es ↔ ((elements whole ≡ es) × (list_all is_listed_element es ≡ true)) }
{}
