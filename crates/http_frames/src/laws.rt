//! What follows from what the calls of `clients` promise.
ghost use Rattle.http_frames.specs.Laws.{EachIsAlone, GoneIsGone, NobodyWaits, TurnComes};

/// The laws of turns. It does nothing.
///
/// - A connection has its turn after exactly as many turns as stood before it.
/// - Where nobody waits for a turn, each connection that goes on has answered each whole request that came, or an answer of it waits, or it is closed.
/// - Wherever the clients have these events, each connection is as if it were alone, whatever its number.
/// - Once a client is gone, no call is made for its connection, and nothing is handed out to it.
pub fn turns_are_fair()
    ensures comes { TurnComes }
    ensures rests { NobodyWaits }
    ensures gone { GoneIsGone }
    ensures alone { EachIsAlone }
{}
