//! A service behind a login, of which a journal keeps what each turn changed.
ghost use Rattle.dav_login_core.specs.LoginViews.{login};
ghost use Rattle.dav_login_core.specs.Private.Turns.{turns_behind};

use crate::login::Login;
use crate::watching::Host;
use journal_core::Round;
use kept_frames::Recording;
use std::alloc::AllocError;

/// What the login knows is no part of what is kept.
impl<S: Recording, H: Host> Recording for Login<S, H> {
    ghost stands = { λ records l. S.stands records (login l).service };

    ghost turn = { λ l. S.turn (login l).service };

    fn turn(&self) -> bool {
        self.service.turn()
    }

    fn record(&self, round: &mut Round) -> Result<(), AllocError> {
        self.service.record(round)
    }

    ghost turns = { λ old number calls new told. let turn = turns_behind S.begins S.answers old new number calls told in S.turns old.service number turn.inner new.service turn.told };

    ghost lists = { λ records old file new stands listed. S.lists records old.service file new.service stands listed.service };

    ghost clocks = { λ records old moment new stands clocked. S.clocks records old.service moment new.service stands clocked.service };
}
