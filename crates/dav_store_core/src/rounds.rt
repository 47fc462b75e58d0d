//! Records that are added to a round.
ghost use Rattle.std.specs.Prelude.{◌≡◌, ◌++◌, ◌∷◌, [], ℕ, List, OnOk, OnErr};
ghost use Rattle.std.specs.List.{flat_map};
ghost use Rattle.journal_core.specs.Resting.{Carries};
ghost use Rattle.dav_effects_core.specs.Records.{bytes_of_pieces};

use bytes::Bytes;
use dav_effects_core::Pieces;
use journal_core::Round;
use std::alloc::AllocError;

/// Adds a record to the round, or a snapshot (own). Its last body is shared, the others are copied.
/// At `Err` there was no memory for it, and the round has the records that it had.
pub fn add_record(round: &mut Round, pieces: Pieces) -> Result<(), AllocError>
    ensures adds { OnOk result ((records : List (List ℕ)) → Carries round.old records
        → Carries round.new (records ++ bytes_of_pieces pieces ∷ [])) }
    ensures fails { OnErr result ((records : List (List ℕ)) → Carries round.old records
        → Carries round.new records) }
{
    let Pieces {
        mut head,
        mut bodies,
    } = pieces;
    let last = bodies.pop();
    join(&mut head, &bodies)?;
    match last {
        Some(last) => round.add(&head, &last),
        None => round.add(&head, &Bytes::new()),
    }
}

// Adds the bodies to the head.
fn join(head: &mut Vec<u8>, bodies: &[Bytes]) -> Result<(), AllocError>
    ensures { OnOk result (head.new.items ≡ head.old.items ++ flat_map (λ body. body) bodies.now) }
{
    'joining: for body in bodies {
        head.extend_from_slice(body)?;
    }
    Ok(())
}
