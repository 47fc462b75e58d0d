//! A log, where one is chosen.
ghost use Rattle.std.specs.Prelude.{◌≡◌};
ghost use Rattle.turn_fronts.specs.LogTaking.{OnLog};

use bytes::Bytes;
use http::Request;
use http_frames::gate::AccessLog;
use http_server::Response;

/// A log, where one is chosen; without one nothing is told (own).
#[derive(Drop)]
pub struct MayLog<N> {
    /// The log.
    pub notes: Option<N>,
}

impl<N: AccessLog> AccessLog for MayLog<N> {
    ghost begins = { λ old address new. OnLog (λ n n'. N.begins n address n') old.notes new.notes };

    ghost answered = { λ old request response user new. OnLog (λ n n'. N.answered n request response user n') old.notes new.notes };

    ghost refused = { λ old status new. OnLog (λ n n'. N.refused n status n') old.notes new.notes };

    ghost lost = { λ old new. OnLog (λ n n'. N.lost n n') old.notes new.notes };

    ghost late = { λ old address new. OnLog (λ n n'. N.late n address n') old.notes new.notes };

    ghost turned = { λ old address count new. OnLog (λ n n'. N.turned n address count n') old.notes new.notes };

    fn begin(&mut self, address: &[u8]) {
        match &mut self.notes {
            Some(notes) => notes.begin(address),
            None => {}
        }
    }

    fn answered(&mut self, request: &Request<Bytes>, response: &Response, user: &[u8]) {
        match &mut self.notes {
            Some(notes) => notes.answered(request, response, user),
            None => {}
        }
    }

    fn refused(&mut self, status: u16) {
        match &mut self.notes {
            Some(notes) => notes.refused(status),
            None => {}
        }
    }

    fn lost(&mut self) {
        match &mut self.notes {
            Some(notes) => notes.lost(),
            None => {}
        }
    }

    fn late(&mut self, address: &[u8]) {
        match &mut self.notes {
            Some(notes) => notes.late(address),
            None => {}
        }
    }

    fn turned(&mut self, address: &[u8], count: u64) {
        match &mut self.notes {
            Some(notes) => notes.turned(address, count),
            None => {}
        }
    }
}
