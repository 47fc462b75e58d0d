//! Values by their numbers. They are put in and forgotten here, where no more is known of them than that they go: so none of it is proved again for what a connection has.
ghost use Rattle.std.specs.Prelude.{◌≡◌, ℕ, ◌==◌, if◌then◌else◌, None, Some, true, false};
ghost use Rattle.http_frames.specs.Private.ConnectionTables.{stands_at};

use std::collections::HashMap;

/// Puts a value under its number; whether there is memory for it. Where there is none, the others stay as they are.
pub(crate) fn place<V: Drop>(table: &mut HashMap<u64, V>, number: u64, value: V) -> bool
    ensures puts { result ≡ true → (q : ℕ) → stands_at table.new.entries q ≡ (if number == q then Some value else stands_at table.old.entries q) }
    ensures stays { result ≡ false → (q : ℕ) → stands_at table.new.entries q ≡ stands_at table.old.entries q }
{
    table.insert(number, value).is_ok()
}

/// Forgets the value under a number, if one stands there.
pub(crate) fn forget<V: Drop>(table: &mut HashMap<u64, V>, number: u64)
    ensures { (q : ℕ) → stands_at table.new.entries q ≡ (if number == q then None else stands_at table.old.entries q) }
{
    let _value = table.remove(&number);
}
