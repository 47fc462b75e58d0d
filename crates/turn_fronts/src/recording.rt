//! A service of which a journal keeps what each turn changed, behind these.
ghost use Rattle.turn_fronts.specs.Looking.{looking};
ghost use Rattle.turn_fronts.specs.Private.NamedTurns.{told_behind};
ghost use Rattle.turn_fronts.specs.Private.LookTurns.{told_looks};

use crate::named::Named;
use crate::read_only::ReadOnly;
use journal_core::Round;
use kept_frames::Recording;
use std::alloc::AllocError;

/// It is kept as the service is.
impl<S: Recording> Recording for Named<S> {
    ghost stands = { λ records n. S.stands records n.service };

    ghost turn = { λ n. S.turn n.service };

    fn turn(&self) -> bool {
        self.service.turn()
    }

    fn record(&self, round: &mut Round) -> Result<(), AllocError> {
        self.service.record(round)
    }

    ghost turns = { λ old number calls new told. S.turns old.service number calls new.service (told_behind S.begins S.answers old number calls new told) };

    ghost clocks = { λ records old moment new stands clocked. S.clocks records old.service moment new.service stands clocked.taken };

    ghost lists = { λ records old file new stands listed. S.lists records old.service file new.service stands listed.taken };
}

/// It is kept as the service is.
impl<S: Recording> Recording for ReadOnly<S> {
    ghost stands = { λ records r. S.stands records r.service };

    ghost turn = { λ r. S.turn r.service };

    fn turn(&self) -> bool {
        self.service.turn()
    }

    fn record(&self, round: &mut Round) -> Result<(), AllocError> {
        self.service.record(round)
    }

    ghost turns = { λ old number calls new told. S.turns old.service number (looking calls) new.service (told_looks S.begins S.answers old number calls new told) };

    ghost clocks = { λ records old moment new stands clocked. S.clocks records old.service moment new.service stands clocked };

    ghost lists = { λ records old file new stands listed. S.lists records old.service file new.service stands listed };
}
