// What a line spells.
ghost use Rattle.std.specs.Prelude.{◌≡◌};
ghost use Rattle.scenario.specs.Result.{Gives};
ghost use Rattle.scenario.specs.Spelling.{spelled as line_spells, order_of as args_spell, send_of as send_spells, sendhex_of as sendhex_spells, raw_of as raw_spells, fuse_of as fuse_spells, replay_of as replay_spells, free_of as free_spells, offer_of as offer_spells, backup_of as backup_spells};

use crate::fault::{Cause, LineFault};
use crate::hex::{bytes_of, choice_of};
use crate::keyword::Keyword;
use crate::order::Order;
use crate::words::{cut, first_number, named_of, number_of, two_first, two_of};
use cl_base::Bytes;
use std::alloc::Global;

/// `send C M TEXT`
#[tactic(auto, unfolding(crate::specs::Spelling::send_of))]
fn send(alloc: Global, line: u64, args: &[u8]) -> Result<Order, LineFault>
    ensures { Gives result (send_spells line args.now) }
{
    let (client, member, text) = two_first(args)?;
    if text.is_empty() {
        return Err(LineFault::Faulty(Cause::Arguments));
    }
    let text = Bytes::of(alloc, text)?;
    Ok(Order::Send {
        line,
        client,
        member,
        text,
    })
}

/// `sendhex C M HEX`
#[tactic(auto, unfolding(crate::specs::Spelling::sendhex_of))]
fn sendhex(alloc: Global, line: u64, args: &[u8]) -> Result<Order, LineFault>
    ensures { Gives result (sendhex_spells line args.now) }
{
    let (client, member, text) = two_first(args)?;
    let payload = bytes_of(alloc, text)?;
    Ok(Order::SendHex {
        line,
        client,
        member,
        payload,
    })
}

/// `bytes C M HEX`
#[tactic(auto, unfolding(crate::specs::Spelling::raw_of))]
fn raw(alloc: Global, line: u64, args: &[u8]) -> Result<Order, LineFault>
    ensures { Gives result (raw_spells line args.now) }
{
    let (client, member, text) = two_first(args)?;
    let bytes = bytes_of(alloc, text)?;
    Ok(Order::Raw {
        line,
        client,
        member,
        bytes,
    })
}

/// `fuse M K CHOICE`
#[tactic(auto, unfolding(crate::specs::Spelling::fuse_of))]
fn fuse(line: u64, args: &[u8]) -> Result<Order, LineFault>
    ensures { Gives result (fuse_spells line args.now) }
{
    let (member, calls, text) = two_first(args)?;
    let choice = choice_of(text)?;
    Ok(Order::Fuse {
        line,
        member,
        calls,
        choice,
    })
}

/// `replay A B K`
#[tactic(auto, unfolding(crate::specs::Spelling::replay_of))]
fn replay(line: u64, args: &[u8]) -> Result<Order, LineFault>
    ensures { Gives result (replay_spells line args.now) }
{
    let (from, to, text) = two_first(args)?;
    let latest = number_of(text)?;
    Ok(Order::Replay {
        line,
        from,
        to,
        latest,
    })
}

/// `free on`, `free off`
#[tactic(auto, unfolding(crate::specs::Spelling::free_of))]
fn free(line: u64, args: &[u8]) -> Result<Order, LineFault>
    ensures { Gives result (free_spells line args.now) }
{
    if args == b"on".as_slice() {
        Ok(Order::FreeOn { line })
    } else if args == b"off".as_slice() {
        Ok(Order::FreeOff { line })
    } else {
        Err(LineFault::Faulty(Cause::Arguments))
    }
}

/// `offer C TEXT`
#[tactic(auto, unfolding(crate::specs::Spelling::offer_of))]
fn offer(alloc: Global, line: u64, args: &[u8]) -> Result<Order, LineFault>
    ensures { Gives result (offer_spells line args.now) }
{
    let (client, text) = first_number(args)?;
    if text.is_empty() {
        return Err(LineFault::Faulty(Cause::Arguments));
    }
    let text = Bytes::of(alloc, text)?;
    Ok(Order::Offer { line, client, text })
}

/// `backup M`, `backup off`, `backup lose`
#[tactic(auto, unfolding(crate::specs::Spelling::backup_of))]
fn backup(line: u64, args: &[u8]) -> Result<Order, LineFault>
    ensures { Gives result (backup_spells line args.now) }
{
    if args == b"off".as_slice() {
        return Ok(Order::BackupOff { line });
    }
    if args == b"lose".as_slice() {
        return Ok(Order::BackupLose { line });
    }
    let member = number_of(args)?;
    Ok(Order::Backup { line, member })
}

/// The order of a first word and the text behind its space.
#[tactic(auto, unfolding(crate::specs::Spelling::order_of))]
fn order_of(alloc: Global, line: u64, keyword: Keyword, args: &[u8]) -> Result<Order, LineFault>
    ensures { Gives result (args_spell line keyword args.now) }
{
    match keyword {
        Keyword::One(single) => Ok(single.order(line, number_of(args)?)),
        Keyword::Two(double) => {
            let (first, second) = two_of(args)?;
            Ok(double.order(line, first, second))
        }
        Keyword::Service => {
            let name = named_of(args)?;
            Ok(Order::Service { line, name })
        }
        Keyword::Send => send(alloc, line, args),
        Keyword::SendHex => sendhex(alloc, line, args),
        Keyword::Raw => raw(alloc, line, args),
        Keyword::Fuse => fuse(line, args),
        Keyword::Replay => replay(line, args),
        Keyword::Free => free(line, args),
        Keyword::Offer => offer(alloc, line, args),
        Keyword::Backup => backup(line, args),
    }
}

/// The order that a line's text spells, with numbers of any size.
#[tactic(auto, unfolding(crate::specs::Spelling::spelled, crate::specs::Spelling::order_after, crate::specs::Spelling::order_alone))]
pub fn spelled(alloc: Global, line: u64, text: &[u8]) -> Result<Order, LineFault>
    ensures { Gives result (line_spells line text.now) }
{
    let (word, args) = match cut(text) {
        Some((word, args)) => (word, Some(args)),
        None => (text, None),
    };
    match (Keyword::of(word), args) {
        (None, _) => Err(LineFault::Faulty(Cause::UnknownOrder)),
        (Some(_), None) => Err(LineFault::Faulty(Cause::Arguments)),
        (Some(keyword), Some(args)) => order_of(alloc, line, keyword, args),
    }
}
