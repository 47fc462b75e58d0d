//! A store of its own on `Tree`: a calendar of events by their names.
ghost use Rattle.std.specs.Prelude.{◌≡◌, Some, None, IfOk, OnErr, MatchResult};
ghost use Rattle.uses.specs.Events as spec;

use bytes::Bytes;
use dav_resource_core::errors::{FsError, FsResult};
use dav_resource_core::tree::{ROOT_ID, Tree};
use std::alloc::Global;

/// The events of one calendar.
pub type Calendar = Tree<Bytes, String>;

/// Adds an event. `Exists` where there is one of that name; refused, the calendar is as it was.
pub fn add_event(alloc: Global, events: &mut Calendar, name: &[u8], text: String) -> FsResult<u64>
    ensures numbered { IfOk result (λ id. id ≡ events.old.keyed.next) }
    ensures refused { OnErr result (events.new ≡ events.old) }
{
    let name = Bytes::copy_from_slice(alloc, name)?;
    events.add_child(ROOT_ID, name, text, false)
}

/// The text of the event of that name. `NotFound` where there is none.
pub fn event<'a>(events: &'a Calendar, name: &[u8]) -> FsResult<&'a str>
    ensures { MatchResult result
        (λ text. spec.event events.now name.now ≡ Some text.now)
        (λ e. (e ≡ FsError.NotFound) × (spec.event events.now name.now ≡ None)) }
{
    let id = events.find_child(ROOT_ID, |key| key.as_slice() == name)?;
    Ok(events.get_node(id)?.as_str())
}

#[cfg(test)]
mod tests {
    use super::*;
    use std::test::Fail;

    #[test]
    fn keeps_events(rt: HostRuntime) -> Result<(), Fail> {
        let alloc = rt.alloc();
        let mut events: Calendar = Tree::new(alloc, String::new(alloc))?;
        let text = String::from_str(alloc, "at noon")?;
        assert_eq!(rt; add_event(alloc, &mut events, b"lunch", text)?, 2);
        let text = String::from_str(alloc, "at one")?;
        assert!(rt; add_event(alloc, &mut events, b"lunch", text) == Err(FsError::Exists));
        assert!(rt; event(&events, b"lunch")? == "at noon");
        assert!(rt; event(&events, b"tea").err() == Some(FsError::NotFound));
        Ok(())
    }
}
