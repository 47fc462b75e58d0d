//! Headers: their names, and what their values say. What a clause sees of a value is its bytes; one definition a header says what the values mean,
//! as `depth_header` does, a function into `Option`. Of `If` it is a grammar.
//! Read `Depth::decode` first, and `If::decode` for the grammar.
mod depths;
mod destinations;
mod errors;
mod etags;
mod if_headers;
mod if_ranges;
mod languages;
mod names;
mod overwrites;
mod tag_lists;
mod texts;
mod timeouts;
mod update_ranges;
mod urls;
mod values;

pub use depths::Depth;
pub use destinations::Destination;
pub use errors::HeaderError;
pub use etags::{ETag, spellings_are_told};
pub use if_headers::{If, IfCondition, IfItem, IfList, one_reading};
pub use if_ranges::IfRange;
pub use languages::ContentLanguage;
pub use names::{
    content_language, content_location, content_type, depth, destination, etag, if_, if_match,
    if_none_match, if_range, lock_token, overwrite, timeout, x_litmus, x_update_range,
};
pub use overwrites::Overwrite;
pub use tag_lists::{ETagList, IfMatch, IfNoneMatch};
pub use texts::{ContentLocation, ContentType, LockToken, XLitmus};
pub use timeouts::{DavTimeout, Timeout, timeouts_round_trip};
pub use update_ranges::{XUpdateRange, ranges_round_trip};
