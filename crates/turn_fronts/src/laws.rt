//! What the contracts lead to.
ghost use Rattle.std.specs.Prelude.{List, map};
ghost use Rattle.http_frames.specs.ConnectionEvents.{Event};
ghost use Rattle.http_frames.specs.TurnRuns.{EventsLead};
ghost use Rattle.turn_fronts.specs.Looking.{ReadOnlyRun, with_looks};
ghost use Rattle.turn_fronts.specs.NamedUsers.{NamedRun};
ghost use Rattle.turn_fronts.specs.declared.named.Named.{Named};
ghost use Rattle.turn_fronts.specs.declared.read_only.ReadOnly.{ReadOnly};

use http_frames::gate::TurnService;

/// The law of whole runs (own): over any events that lead a read-only service from one state to another, the service behind it is led by the same events with those calls alone that look; all
/// others are answered 403. It does nothing.
pub fn looks_lead_behind<S: TurnService>()
    ensures { (old new : ReadOnly S) (events : List Event)
        → ReadOnlyRun S.begins S.answers S.clocked S.listed old events new
        → EventsLead S.begins S.answers S.clocked S.listed old.service (map with_looks events) new.service }
{}

/// The law of whole runs of a service that tells users (own): over any events that lead it from one state to another, the service behind it is led by the same events. It does nothing.
pub fn names_lead_behind<S: TurnService>()
    ensures { (old new : Named S) (events : List Event)
        → NamedRun S.begins S.answers S.clocked S.listed old events new
        → EventsLead S.begins S.answers S.clocked S.listed old.service events new.service }
{}
