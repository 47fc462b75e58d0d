//! XML 1.0 (fifth edition) with Namespaces 1.0. Read `read` first.
mod builder;
mod characters;
mod declarations;
mod documents;
mod errors;
mod markup;
mod names;
mod namespaces;
mod reader;
mod references;
mod scan;
mod scope;
mod writer;

pub use documents::{Attribute, Document, Name, Node};
pub use errors::XmlError;
pub use reader::read;
pub use writer::{
    Writer, documents_round_trip, elements_round_trip, texts_round_trip, write, write_element,
};
