//! The types of files, by the last extensions of their names.
ghost use Rattle.std.specs.Prelude.{◌≡◌, map, option_copied};
ghost use Rattle.dav_fields_core.specs.ContentTypes as spec;

// An extension in lower case, and the type of such files.
const TYPES: [(&str, &str); 40] = [
    ("7z", "application/x-7z-compressed"),
    ("avi", "video/x-msvideo"),
    ("bmp", "image/bmp"),
    ("bz2", "application/x-bzip2"),
    ("css", "text/css"),
    ("csv", "text/csv"),
    ("doc", "application/msword"),
    (
        "docx",
        "application/vnd.openxmlformats-officedocument.wordprocessingml.document",
    ),
    ("flac", "audio/flac"),
    ("gif", "image/gif"),
    ("gz", "application/gzip"),
    ("htm", "text/html"),
    ("html", "text/html"),
    ("ics", "text/calendar"),
    ("ico", "image/x-icon"),
    ("jpeg", "image/jpeg"),
    ("jpg", "image/jpeg"),
    ("js", "text/javascript"),
    ("json", "application/json"),
    ("md", "text/markdown"),
    ("mkv", "video/x-matroska"),
    ("mov", "video/quicktime"),
    ("mp3", "audio/mpeg"),
    ("mp4", "video/mp4"),
    ("odt", "application/vnd.oasis.opendocument.text"),
    ("ogg", "audio/ogg"),
    ("pdf", "application/pdf"),
    ("png", "image/png"),
    ("ppt", "application/vnd.ms-powerpoint"),
    ("svg", "image/svg+xml"),
    ("tar", "application/x-tar"),
    ("tif", "image/tiff"),
    ("tiff", "image/tiff"),
    ("txt", "text/plain"),
    ("vcf", "text/vcard"),
    ("wav", "audio/wav"),
    ("webm", "video/webm"),
    ("webp", "image/webp"),
    ("xml", "text/xml"),
    ("zip", "application/zip"),
];

/// The type of a file with that name, by what stands behind its last dot, in either case of letters (own).
pub fn content_type(name: &[u8]) -> &'static str
    ensures { result.now ≡ spec.content_type name.now }
{
    let Some(extension) = extension(name) else {
        return OTHER;
    };
    match type_in(&TYPES, extension) {
        Some(text) => text,
        None => OTHER,
    }
}

// What stands behind the last dot of a name, where there is one.
fn extension(name: &[u8]) -> Option<&[u8]>
    ensures { option_copied result ≡ spec.extension name.now }
{
    for place in (0..name.len()).rev() {
        if name[place] == b'.' {
            return Some(&name[place + 1..]);
        }
    }
    None
}

// The type of the first entry of a table that has the extension.
fn type_in(table: &[(&str, &'static str)], extension: &[u8]) -> Option<&'static str>
    ensures { option_copied result ≡ spec.type_in (map (λ e. (e.0.now, e.1.now)) table.now) extension.now }
{
    for (known, text) in table {
        if extension.eq_ignore_ascii_case(known.as_bytes()) {
            return Some(text);
        }
    }
    None
}

// The type of bytes of which nothing is known (RFC 9110 section 8.3).
const OTHER: &str = "application/octet-stream";
