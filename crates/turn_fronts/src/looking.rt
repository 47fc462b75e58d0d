//! Which requests ask for no change.
ghost use Rattle.std.specs.Prelude.{◌≡◌};
ghost use Rattle.turn_fronts.specs.Looking.{only_looks};

use bytes::Bytes;
use http::Request;

/// Whether the request asks for no change, by its method.
pub(crate) fn asks_to_look(request: &Request<Bytes>) -> bool
    ensures { result ≡ only_looks request.now }
{
    request.method().is_safe() || request.method().as_str() == "PROPFIND"
}
