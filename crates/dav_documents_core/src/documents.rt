//! What the documents of answers are written by.
ghost use Rattle.std.specs.Prelude.{◌≡◌, ◌∷◌, [], codes, string_bytes, IfOk, OnOk};
ghost use Rattle.dav_xml_core.specs.Views.{writing_of};
ghost use Rattle.dav_xml_core.specs.Documents.{Text};
ghost use Rattle.dav_xml_core.specs.Writing.{with_nodes, with_start};
ghost use Rattle.dav_documents_core.specs.RefusalBodies.{dav_name, element, front, url_path};

use dav_path_core::davpath::{DavPath, escaped};
use dav_xml_core::davxml::Writer;
use std::alloc::{AllocError, Global};

/// An element of `DAV:` begins.
pub fn begin(writer: &mut Writer, local: &str) -> Result<(), AllocError>
    ensures { OnOk result (writing_of writer.new ≡ with_start (writing_of writer.old) (dav_name local.now) []) }
{
    writer.start_dav(local)
}

/// An element of `DAV:` with nothing in it.
pub fn write_empty(writer: &mut Writer, local: &str) -> Result<(), AllocError>
    ensures { OnOk result (writing_of writer.new ≡ with_nodes (writing_of writer.old) (element local.now [])) }
{
    begin(writer, local)?;
    writer.end()
}

/// An element of `DAV:` with an empty one in it.
pub fn write_within(writer: &mut Writer, outer: &str, inner: &str) -> Result<(), AllocError>
    ensures { OnOk result (writing_of writer.new ≡ with_nodes (writing_of writer.old) (element outer.now (element inner.now []))) }
{
    begin(writer, outer)?;
    write_empty(writer, inner)?;
    writer.end()
}

/// An element of `DAV:` with a text in it.
pub fn write_text(writer: &mut Writer, local: &str, text: &str) -> Result<(), AllocError>
    ensures { OnOk result (writing_of writer.new ≡ with_nodes (writing_of writer.old) (element local.now (Text text.now ∷ []))) }
{
    begin(writer, local)?;
    writer.text(text)?;
    writer.end()
}

/// The URL of a path behind the prefix, as an element.
pub fn write_href(
    alloc: Global,
    writer: &mut Writer,
    prefix: &str,
    path: &DavPath,
) -> Result<(), AllocError>
    ensures { OnOk result (writing_of writer.new
        ≡ with_nodes (writing_of writer.old) (element (codes "href") (Text (url_path prefix.now path.now) ∷ []))) }
{
    let text = url_text(alloc, prefix, path)?;
    write_text(writer, "href", &text)
}

/// The URL of a path behind the prefix (RFC 4918 section 8.3).
pub fn url_text(alloc: Global, prefix: &str, path: &DavPath) -> Result<String, AllocError>
    ensures { IfOk result (λ text. string_bytes text ≡ url_path prefix.now path.now) }
{
    let mut text = String::new(alloc);
    escaped(front_of(prefix)).append_to(&mut text)?;
    escaped(path.as_bytes()).append_to(&mut text)?;
    Ok(text)
}

/// The prefix as it stands before a path: without a slash at its end.
pub fn front_of(prefix: &str) -> &[u8]
    ensures { result.now ≡ front prefix.now }
{
    let bytes = prefix.as_bytes();
    if bytes.ends_with(b"/") {
        &bytes[..bytes.len().saturating_sub(1)]
    } else {
        bytes
    }
}
