//! A service that says, as a record, what each turn changed.
ghost use Rattle.std.specs.Prelude.{◌≡◌, Bool, not, ℕ, List, OnOk, OnErr};
ghost use Rattle.http_server.specs.Exchange.{Call};
ghost use Rattle.http_frames.specs.Gate.{IsTold};
ghost use Rattle.journal_core.specs.Resting.{Carries};
ghost use Rattle.kept_frames.specs.TurnRecords.{RecordsTurn};

use http_frames::gate::TurnService;
use journal_core::Round;
use std::alloc::AllocError;

/// A service of which a journal keeps what each turn changed (own).
pub trait Recording: TurnService {
    // Between two turns, these records stand for the service.
    ghost stands: { List (List ℕ) → Self → Type 0 };

    // Another one behind each turn that the service was told of.
    ghost turn: { Self → Bool };

    /// Another answer behind each turn that it was told of.
    fn turn(&self) -> bool
        ensures { result ≡ turn self.now };

    /// Adds to the round what the last turn changed, as records, which have no more room than the service said (`room`); none where nothing was changed.
    /// `AllocError` where there is no memory for it, and then the round is as it was.
    fn record(&self, round: &mut Round) -> Result<(), AllocError>
        ensures adds { OnOk result (RecordsTurn Self.begins Self.answers stands Self.room round.old round.new self.now) }
        ensures fails { OnErr result ((records : List (List ℕ)) → Carries round.old records → Carries round.new records) };

    // A turn is told by the answer of `turn`.
    ghost turns: { (old : Self) (number : ℕ) (calls : List Call) (new : Self) → IsTold Self.begins Self.answers old number calls new → turn new ≡ not (turn old) };

    // What moment it is changes nothing that is kept.
    ghost clocks: { (records : List (List ℕ)) (old : Self) (moment : ℕ) (new : Self) → stands records old → Self.clocked old moment new → stands records new };

    // Who the users are changes nothing that is kept.
    ghost lists: { (records : List (List ℕ)) (old : Self) (file : List ℕ) (new : Self) → stands records old → Self.listed old file new → stands records new };
}
