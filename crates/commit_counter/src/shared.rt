// What both ends of an image share.
ghost use Rattle.std.specs.Prelude.{◌≡◌};
ghost use Rattle.crossbeam_queue.specs.Passes.{ruled_capacity};

use crate::line::Line;
use crate::words::Words;

/// The queue and the two words of one image.
#[derive(Drop)]
pub struct Shared {
    pub(crate) queue: Line,
    pub(crate) words: Words,
    ghost capacity: { ruled_capacity queue ≡ 256 },
    ghost two: { words.shared.table_id.words ≡ 2 },
}

impl Shared {
    pub(crate) fn new(queue: Line, words: Words) -> Shared
        requires capacity { ruled_capacity queue ≡ 256 }
        requires two { words.shared.table_id.words ≡ 2 }
        ensures queue { result.queue ≡ queue }
        ensures words { result.words ≡ words }
    {
        Shared { queue, words }
    }
}
