// What was heard, and the votes that came.
ghost use Rattle.std.specs.Prelude.{◌≡◌, fold};
ghost use Rattle.std.specs.List.{list_any};
ghost use Rattle.election.specs.Rows.{heard_count, heard_better, later, vote_count};

use crate::Heard;
use entry_log::{LogName, better};

pub fn heard_count(heard: &[Option<Heard>]) -> usize
    ensures { result ≡ heard_count heard.now }
{
    heard.iter().filter(|h| h.is_some()).count()
}

fn is_better(own: LogName, heard: Option<Heard>) -> bool
    ensures { result ≡ heard_better own heard }
{
    match heard {
        Some(h) => better(h.term, h.place, own.term, own.place),
        None => false,
    }
}

/// Whether a log that was heard is better than this one.
pub fn is_any_better(heard: &[Option<Heard>], own: LogName) -> bool
    ensures { result ≡ list_any (heard_better own) heard.now }
{
    heard.iter().any(|h| is_better(own, *h))
}

fn later(most: i64, heard: Option<Heard>) -> i64
    ensures { result ≡ later most heard }
{
    match heard {
        Some(h) => most.max(h.candidate),
        None => most,
    }
}

/// The greatest of a term and the candidate terms heard.
pub fn greatest_heard(least: i64, heard: &[Option<Heard>]) -> i64
    ensures { result ≡ fold later least heard.now }
{
    let mut most = least;
    for h in heard {
        most = later(most, *h);
    }
    most
}

pub fn vote_count(votes: &[bool]) -> usize
    ensures { result ≡ vote_count votes.now }
{
    votes.iter().filter(|v| **v).count()
}
