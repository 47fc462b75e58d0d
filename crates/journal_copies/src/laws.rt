//! What follows from the form of rounds.
ghost use Rattle.journal_copies.specs.WholeRounds.{RoundsAreOne};

/// At the front of bytes stands one whole round at most: so what is read of a stream is what was written to it. It does nothing.
pub fn rounds_are_one()
    ensures one { RoundsAreOne }
{}
