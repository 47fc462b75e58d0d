//! Properties.
ghost use Rattle.std.specs.Prelude.{◌≡◌, Some, option_map, IfOk, IfErr, MatchResult};
ghost use Rattle.std.specs.String.{string_bytes};
ghost use Rattle.dav_files_core.specs.PropertyXml.{property_xml, start_tag, declaration};

use dav_path_core::errors::{FsError, FsResult};
use std::alloc::{AllocError, Global};

/// A property (RFC 4918 section 4).
#[derive(Debug, Drop)]
pub struct DavProp {
    /// Its name, without a prefix.
    pub name: String,
    /// The prefix that stands for the namespace in the xml.
    pub prefix: Option<String>,
    /// The namespace.
    pub namespace: Option<String>,
    /// The property as xml.
    pub xml: Option<Vec<u8>>,
}

impl DavProp {
    /// A property with a text as its value. The xml is `<P:N xmlns:P="S">V</P:N>`, with nothing in it escaped.
    ///
    /// `InsufficientStorage` where it is out of memory.
    pub fn new(
        alloc: Global,
        name: &str,
        prefix: &str,
        namespace: &str,
        value: &str,
    ) -> FsResult<DavProp>
        ensures name { IfOk result (λ p. string_bytes p.name ≡ name.now) }
        ensures prefix { IfOk result (λ p. option_map string_bytes p.prefix ≡ Some prefix.now) }
        ensures namespace { IfOk result (λ p. option_map string_bytes p.namespace ≡ Some namespace.now) }
        ensures xml { IfOk result (λ p. option_map (λ v. v.items) p.xml
            ≡ Some (property_xml name.now prefix.now namespace.now value.now)) }
        ensures error { IfErr result (λ e. e ≡ FsError.InsufficientStorage) }
    {
        Ok(DavProp {
            name: name.to_string(alloc)?,
            prefix: Some(prefix.to_string(alloc)?),
            namespace: Some(namespace.to_string(alloc)?),
            xml: Some(xml_of(alloc, name, prefix, namespace, value)?),
        })
    }

    ghost use Rattle.dav_files_core.specs.Properties.{property_of, without_xml};

    // The same without its xml. `InsufficientStorage` where it is out of memory.
    pub(crate) fn without_xml(&self) -> FsResult<DavProp>
        ensures { MatchResult result (λ p. property_of p ≡ without_xml (property_of self.now)) (λ e. e ≡ FsError.InsufficientStorage) }
    {
        Ok(DavProp {
            name: self.name.clone()?,
            prefix: self.prefix.clone()?,
            namespace: self.namespace.clone()?,
            xml: None,
        })
    }
}

/// The same property, or out of memory.
impl Clone for DavProp {
    ghost use Rattle.dav_files_core.specs.Properties.{property_of};

    ghost is_clone = { λ prop copy. property_of copy ≡ property_of prop };

    fn clone(&self) -> Result<DavProp, AllocError> {
        Ok(DavProp {
            name: self.name.clone()?,
            prefix: self.prefix.clone()?,
            namespace: self.namespace.clone()?,
            xml: self.xml.clone()?,
        })
    }
}

fn xml_of(alloc: Global, n: &str, p: &str, s: &str, v: &str) -> FsResult<Vec<u8>>
    ensures { MatchResult result (λ xml. xml.items ≡ property_xml n.now p.now s.now v.now) (λ e. e ≡ FsError.InsufficientStorage) }
{
    let tag = format!(in alloc; "{p}:{n}")?;
    let declaration = declaration(alloc, p, s)?;
    let start = start_tag(alloc, tag.as_str(), declaration.as_str())?;
    let end = format!(in alloc; "</{tag}>")?;
    let xml = format!(in alloc; "{start}{v}{end}")?;
    Ok(xml.into_bytes())
}

fn declaration(alloc: Global, p: &str, s: &str) -> FsResult<String>
    ensures { MatchResult result (λ t. string_bytes t ≡ declaration p.now s.now) (λ e. e ≡ FsError.InsufficientStorage) }
{
    Ok(format!(in alloc; " xmlns:{p}=\"{s}\"")?)
}

fn start_tag(alloc: Global, t: &str, xmlns: &str) -> FsResult<String>
    ensures { MatchResult result (λ text. string_bytes text ≡ start_tag t.now xmlns.now) (λ e. e ≡ FsError.InsufficientStorage) }
{
    Ok(format!(in alloc; "<{t}{xmlns}>")?)
}
