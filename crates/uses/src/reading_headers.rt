//! Headers of a COPY, read.
ghost use Rattle.std.specs.Prelude.{◌≡◌};
ghost use Rattle.dav_headers_core.specs.HeaderGives.{exactly};
ghost use Rattle.uses.specs.Copies as spec;

use dav_resource_core::davheaders::{Depth, HeaderError, Overwrite};
use http_header::HeaderValue;

/// How far down a COPY reaches (RFC 4918 section 9.8.3): all the way without a `Depth`; a depth of one is `Invalid`.
pub fn copy_depth(values: &[HeaderValue]) -> Result<Depth, HeaderError>
    ensures { result ≡ exactly (spec.copy_depth values.now) }
{
    if values.is_empty() {
        return Ok(Depth::Infinity);
    }
    match Depth::decode(values)? {
        Depth::One | Depth::Default => Err(HeaderError::Invalid),
        depth => Ok(depth),
    }
}

/// Whether a COPY may replace what stands at its destination (RFC 4918 section 10.6): it may without an `Overwrite`.
pub fn may_overwrite(values: &[HeaderValue]) -> Result<bool, HeaderError>
    ensures { result ≡ exactly (spec.may_overwrite values.now) }
{
    if values.is_empty() {
        return Ok(true);
    }
    Ok(Overwrite::decode(values)?.0)
}

#[cfg(test)]
mod tests {
    use super::*;
    use std::test::Fail;

    #[test]
    fn reads_a_copy(rt: HostRuntime) -> Result<(), Fail> {
        let alloc = rt.alloc();
        for (text, depth) in [
            ("0", Some(Depth::Zero)),
            ("infinity", Some(Depth::Infinity)),
            ("1", None),
        ] {
            let values = vec![in alloc; HeaderValue::from_str(alloc, text)?]?;
            assert!(rt; copy_depth(&values).ok() == depth, "{text}");
        }
        assert!(rt; copy_depth(&[]).ok() == Some(Depth::Infinity));
        let values = vec![in alloc; HeaderValue::from_str(alloc, "F")?]?;
        assert!(rt; may_overwrite(&values).ok() == Some(false));
        assert!(rt; may_overwrite(&[]).ok() == Some(true));
        Ok(())
    }
}
