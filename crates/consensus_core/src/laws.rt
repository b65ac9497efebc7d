// The rows over the shape of a log are the rows over the log.
ghost use Rattle.consensus_core.specs.OverLog.{SameName, SameAnswer, SameCut, SameBatch, SameCount, SameSpelled};
ghost use Rattle.consensus_core.specs.Standing.{PacketsFit, DutiesFit, StartsFit};

/// The rows of a member read no more of its log than the shape.
pub fn rows_read_the_shape()
    ensures name { SameName }
    ensures answer { SameAnswer }
    ensures cut { SameCut }
    ensures batch { SameBatch }
    ensures count { SameCount }
    ensures spelled { SameSpelled }
{}

/// The disk can make each row's change, and what a member's values have to do with its log stays so.
pub fn rows_can_be_made()
    ensures packets { PacketsFit }
    ensures duties { DutiesFit }
    ensures starts { StartsFit }
{}
