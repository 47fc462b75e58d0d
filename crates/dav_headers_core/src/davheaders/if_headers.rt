//! `If`.
ghost use Rattle.std.specs.Prelude.{◌≡◌, ℕ, map, List, None, Err, IfOk, MatchResult};
ghost use Rattle.dav_headers_core.specs.HeaderGives.{Gives};
ghost use Rattle.dav_headers_core.specs.Values.{one_value};
ghost use Rattle.dav_headers_core.specs.Pairwise.{pairwise};
ghost use Rattle.dav_headers_core.specs.IfBytes.{Group};
ghost use Rattle.dav_headers_core.specs.IfGrammar.{IfText};
ghost use Rattle.dav_headers_core.specs.Private.IfReading as reading;
ghost use Rattle.dav_headers_core.specs.IfValues.{located_list, Located, ReadsAs};
ghost use Rattle.dav_headers_core.specs.IfStrongEq.{list_strong_eq};
ghost use Rattle.dav_headers_core.specs.declared.davheaders.errors.HeaderError.TheVariants as HeaderError;

mod conditions;
mod items;
mod lists;
mod scan;

use super::HeaderError;
pub use conditions::IfCondition;
use http_header::HeaderValue;
pub use items::IfItem;
pub use lists::IfList;
use lists::{lists_at, lists_strong_eq};
use std::alloc::{AllocError, Global};

/// Lists of conditions, one of which is to hold (RFC 4918 section 10.4).
#[derive(Debug, Drop)]
pub struct If(pub Vec<IfList>);

fn lists_of(alloc: Global, bytes: &[u8]) -> Result<Vec<IfList>, HeaderError>
    ensures { Gives (λ lists. map located_list lists.items) result (reading.decoded_lists bytes.now) }
{
    let lists = lists_at(alloc, bytes)?;
    if lists.is_empty() {
        return Err(HeaderError::Invalid);
    }
    Ok(lists)
}

impl If {
    /// The lists that the bytes of the one value spell, by the grammar of docs/FORMATS.md. `Invalid` exactly where there isn't
    /// one value or it isn't spelled so; a resource tag past the size limit of `url` is `OutOfMemory`.
    pub fn decode(alloc: Global, values: &[HeaderValue]) -> Result<If, HeaderError>
        // What is answered is a reading of the one value.
        ensures ok { IfOk result (λ header. ReadsAs values.now (map located_list header.0.items)) }
        // A reading is answered, unless memory runs out; so `Invalid` comes only where there is none.
        ensures only { (lists : List Located) → ReadsAs values.now lists
            → MatchResult result (λ header. map located_list header.0.items ≡ lists) (λ e. e ≡ HeaderError.OutOfMemory) }
        // Whether there is one value is looked at before memory is taken.
        ensures one_value { one_value values.now ≡ None → result ≡ Err HeaderError.Invalid }
    {
        match values {
            [value] => Ok(If(lists_of(alloc, value.as_bytes())?)),
            _ => Err(HeaderError::Invalid),
        }
    }

    /// Whether there are as many lists, each `strong_eq` to the one at its place. It takes no memory. It isn't `==`, as no
    /// value with a weak tag equals itself by it.
    pub fn strong_eq(&self, other: &If) -> bool
        ensures { result ≡ pairwise list_strong_eq (map located_list self.now.0.items) (map located_list other.now.0.items) }
    {
        let (If(lists), If(others)) = (self, other);
        lists_strong_eq(lists, others)
    }
}

/// The same lists, or out of memory.
impl Clone for If {
    ghost use Rattle.std.specs.Prelude.{map};
    ghost use Rattle.dav_headers_core.specs.IfValues.{located_list};

    ghost is_clone = { λ header copy. map located_list copy.0.items ≡ map located_list header.0.items };

    fn clone(&self) -> Result<If, AllocError> {
        Ok(If(self.0.clone()?))
    }
}

/// The law that bytes have at most one reading, whatever `url` makes of the texts of the resource tags.
pub fn one_reading()
    ensures { (bytes : List ℕ) (a b : List Group) → IfText bytes a → IfText bytes b → a ≡ b }
{}
