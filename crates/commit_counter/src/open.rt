// An image is made, and closed once both ends are in one thread again.
ghost use Rattle.std.specs.Prelude.{◌≡◌, ◌^◌, ◌<◌, ◌≤◌, true, false, [], IfOk};
ghost use Rattle.commit_counter.specs.Ends.{taken_to, IsPrefix, HasEnded};

use crate::feed::Feed;
use crate::line::{Line, Roles, Total};
use crate::poller::Poller;
use crate::role::Role;
use crate::shared::Shared;
use crate::words::{COMMIT, Settles, Sides, Words};
use cl_base::NoMemory;
use cl_base::limits::QUEUE_ENTRIES;
use std::alloc::Global;
use std::sync::{Arc, Wait};

/// An image that begins at the entry `start`, with nothing fed and nothing published beyond it.
pub fn image(alloc: Global, start: u64, role: Role) -> Result<(Feed, Poller), NoMemory>
    requires { start < 2 ^ 62 }
    ensures feed { IfOk result (λ p. p.0 ≡ record { name = p.0.name; start = start; list = []; commit = start; ended = false; role = role; found = start }) }
    ensures poller { IfOk result (λ p. p.1 ≡ record { name = p.0.name; start = start; list = []; seen = start; last = false }) }
{
    let (queue, mut pass) = Line::ruled(alloc, QUEUE_ENTRIES)?;
    let their_pass = queue.another::<Roles>(&mut pass);
    let (words, mut seat) = Words::of_words(alloc, &[2 * start, start], &start)?;
    let their_seat = words.shared.split_seat::<Sides>(&mut seat);
    let Ok(mine) = Arc::new(alloc, Shared::new(queue, words)) else {
        return Err(NoMemory);
    };
    let theirs = Arc::try_clone(&mine)?;
    let feed = Feed {
        image: mine,
        pass,
        seat,
        word: 2 * start,
        start,
        pushed: start,
        role,
    };
    let poller = Poller {
        image: theirs,
        pass: their_pass,
        seat: their_seat,
        seen: 2 * start,
        start,
        position: start,
    };
    Ok((feed, poller))
}

/// Ends an image, and gives the index of the first entry that was not taken. What was taken is a prefix of what was
/// fed, within the published commit: all up to it, where the poller answered `Ended`.
pub fn close<R: Wait>(_rt: &R, feed: Feed, poller: Poller) -> u64
    requires image { feed.name ≡ poller.name }
    requires ended { feed.ended ≡ true }
    ensures position { result ≡ taken_to poller }
    ensures taken { IsPrefix poller.list feed.list }
    // No more was found to be taken than was.
    ensures found { feed.found ≤ result }
    ensures within { result ≤ feed.commit }
    ensures whole { HasEnded poller → result ≡ feed.commit }
{
    let Feed {
        image,
        mut pass,
        mut seat,
        word: _,
        start: _,
        pushed: _,
        role: _,
    } = feed;
    let Poller {
        image: _,
        pass: their_pass,
        seat: their_seat,
        seen: _,
        start: _,
        position,
    } = poller;
    image.queue.absorb::<Roles>(&mut pass, their_pass);
    image.queue.learn_as::<Total>(&mut pass);
    image.words.shared.join_seat::<Sides>(&mut seat, their_seat);
    image.words.shared.load::<Settles>(&mut seat, COMMIT);
    position
}
