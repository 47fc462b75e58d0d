//! Bodies of requests that are documents.
ghost use Rattle.std.specs.Prelude.{◌≡◌, ◌⊎◌, ◌<◌, ◌^◌, length, map, IfErr, IfOk, None, Some};
ghost use Rattle.dav_xml_core.specs.Reading.{document_of};
ghost use Rattle.dav_xml_core.specs.Views.{node_of};
ghost use Rattle.dav_documents_core.specs.KeptReading.{WasRead};
ghost use Rattle.dav_faults_core.specs.declared.faults.Fault.TheVariants as fault;

use dav_faults_core::faults::Fault;
use dav_xml_core::davxml::{Document, read};
use std::alloc::Global;

/// The document that a body spells (RFC 4918 section 8.2). `BadRequest` where it spells none.
pub fn document_in(alloc: Global, body: &[u8]) -> Result<Document, Fault>
    ensures ok { IfOk result (λ document. document_of body.now ≡ Some (map node_of document.nodes.items)) }
    ensures err { IfErr result (λ e. (e ≡ fault.InsufficientStorage) ⊎ ((e ≡ fault.BadRequest) × (document_of body.now ≡ None))) }
    // So each of its elements can be written and read again, with one more attribute, too.
    ensures readable { IfOk result (λ document. WasRead (map node_of document.nodes.items)) }
{
    Ok(read(alloc, body)?)
}

/// Memory holds the bytes, so there are fewer than 2^64. It does nothing.
pub fn fits(bytes: &[u8])
    ensures { length bytes.now < 2 ^ 64 }
{}
