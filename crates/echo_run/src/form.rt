// Which scenarios are of the form that is run here.
ghost use Rattle.std.specs.Prelude.{◌≡◌, ◌≤◌, ◌+◌};
ghost use Rattle.echo_run.specs.Form.{next_stage, is_echo, is_few, fits, rounds_in, is_one_member, is_echo_service, are_rounds, is_first_connect, is_message, is_of_form};

use cl_base::limits::PAYLOAD_LIMIT;
use scenario::{Named, Order};

/// The most rounds of a scenario that is run: no session is silent for too long in them.
const MOST_ROUNDS: u64 = 900;

/// The least rounds of the first canvass: the member leads then.
const LEAST_ROUNDS: u64 = 35;

/// Which order may come next.
#[derive(Clone, Copy, Debug, PartialEq, Eq)]
pub(crate) enum Stage {
    Members,
    Service,
    Electing,
    Connecting,
    Opening,
    Sending,
    Answering,
    End,
}

impl Stage {
    fn next(self) -> Stage
        ensures { result ≡ next_stage self }
    {
        match self {
            Stage::Members => Stage::Service,
            Stage::Service => Stage::Electing,
            Stage::Electing => Stage::Connecting,
            Stage::Connecting => Stage::Opening,
            Stage::Opening => Stage::Sending,
            Stage::Sending => Stage::Answering,
            Stage::Answering | Stage::End => Stage::End,
        }
    }
}

fn is_few(before: u64, rounds: u64) -> bool
    requires { before ≤ 900 }
    ensures { result ≡ is_few before rounds }
{
    rounds <= MOST_ROUNDS - before
}

fn is_one_member(order: &Order) -> bool
    ensures { result ≡ is_one_member order.now }
{
    match order {
        Order::Members { members, .. } => *members == 1,
        _ => false,
    }
}

fn is_echo(name: Named) -> bool
    ensures { result ≡ is_echo name }
{
    match name {
        Named::Echo => true,
        Named::Ledger | Named::Ticker => false,
    }
}

fn is_echo_service(order: &Order) -> bool
    ensures { result ≡ is_echo_service order.now }
{
    match order {
        Order::Service { name, .. } => is_echo(*name),
        _ => false,
    }
}

fn are_rounds(least: u64, before: u64, order: &Order) -> bool
    requires { before ≤ 900 }
    ensures { result ≡ are_rounds least before order.now }
{
    match order {
        Order::Rounds { rounds, .. } => *rounds >= least && is_few(before, *rounds),
        _ => false,
    }
}

fn is_first_connect(order: &Order) -> bool
    ensures { result ≡ is_first_connect order.now }
{
    match order {
        Order::Connect { client, member, .. } => *client == 0 && *member == 0,
        _ => false,
    }
}

fn is_message(order: &Order) -> bool
    ensures { result ≡ is_message order.now }
{
    match order {
        Order::Send {
            client,
            member,
            text,
            ..
        } => *client == 0 && *member == 0 && text.len() <= PAYLOAD_LIMIT,
        _ => false,
    }
}

fn fits(stage: Stage, before: u64, order: &Order) -> bool
    requires { before ≤ 900 }
    ensures { result ≡ fits stage before order.now }
{
    match stage {
        Stage::Members => is_one_member(order),
        Stage::Service => is_echo_service(order),
        Stage::Electing => are_rounds(LEAST_ROUNDS, before, order),
        Stage::Connecting => is_first_connect(order),
        Stage::Opening | Stage::Answering => are_rounds(0, before, order),
        Stage::Sending => is_message(order),
        Stage::End => false,
    }
}

fn rounds_in(order: &Order) -> u64
    ensures { result ≡ rounds_in order.now }
{
    match order {
        Order::Rounds { rounds, .. } => *rounds,
        _ => 0,
    }
}

/// Whether orders are of the form.
pub(crate) fn is_of_form(orders: &[Order]) -> bool
    ensures { result ≡ is_of_form orders.now }
{
    let mut stage = Stage::Members;
    let mut before = 0;
    for order in orders {
        if !fits(stage, before, order) {
            return false;
        }
        stage = stage.next();
        before += rounds_in(order);
    }
    true
}
