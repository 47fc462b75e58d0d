//! How a path is printed.
ghost use Rattle.std.specs.Prelude.{Some};
ghost use Rattle.dav_path_core.specs.Shown.{display_text, debug_text};

use super::DavPath;
use super::lent::trim_slash;
use super::url::escaped;
use std::fmt;
use std::fmt::{Debug, Display, Formatter, Write};

/// The path behind the prefix, without one slash at the end where there are more bytes; what is no UTF-8 is U+FFFD.
impl Display for DavPath {
    ghost output = { λ path. Some (display_text path) };

    fn fmt<W: Write>(&self, f: &mut Formatter<W>) -> fmt::Result {
        for chunk in trim_slash(self.as_bytes()).utf8_chunks() {
            f.write_str(chunk.valid())?;
            if !chunk.invalid().is_empty() {
                f.write_str("\u{FFFD}")?;
            }
        }
        Ok(())
    }
}

/// The URL text between quotes; where there is a prefix, its URL text and then that of the rest between brackets.
impl Debug for DavPath {
    ghost debug_output = { λ path. Some (debug_text path) };

    fn fmt<W: Write>(&self, f: &mut Formatter<W>) -> fmt::Result {
        let prefix = self.prefix().as_bytes();
        if prefix.is_empty() {
            write!(f, "\"{}\"", escaped(self.as_bytes()))
        } else {
            write!(f, "\"{}[{}]\"", escaped(prefix), escaped(self.as_bytes()))
        }
    }
}
