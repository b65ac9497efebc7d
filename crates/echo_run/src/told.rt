// The lines that tell what became of orders.
ghost use Rattle.std.specs.Prelude.{◌≡◌, ◌++◌, OnOk, string_bytes};
ghost use Rattle.std.specs.List.{flat_map};
ghost use Rattle.echo_run.specs.Text.{outcome_text, order_line};

use crate::{OrderLine, Outcome};
use cl_base::NoMemory;
use line_text::{put, put_count, put_value};

fn put_outcome(page: &mut String, outcome: Outcome) -> Result<(), NoMemory>
    ensures { OnOk result (string_bytes page.new ≡ string_bytes page.old ++ outcome_text outcome) }
{
    match outcome {
        Outcome::NotLeader { leader: None } => put(page, "not leader -"),
        Outcome::NotLeader { leader: Some(id) } => put_count(page, "not leader ", id as u64),
        Outcome::WrongTerm { term } => put_value(page, "wrong term ", term),
        Outcome::NoSession { session } => put_value(page, "no session ", session),
        Outcome::TooLarge { bytes } => put_count(page, "too large ", bytes),
        Outcome::SessionLimit => put(page, "session limit"),
        Outcome::BackPressure { bytes } => put_count(page, "back pressure ", bytes),
        Outcome::LogFull { place } => put_count(page, "log full ", place),
        Outcome::Accepted { index } => put_count(page, "accepted ", index),
    }
}

fn put_order(page: &mut String, order: &OrderLine) -> Result<(), NoMemory>
    ensures { OnOk result (string_bytes page.new ≡ string_bytes page.old ++ order_line order.now) }
{
    put_count(page, "order ", order.line)?;
    put(page, " ")?;
    put_outcome(page, order.outcome)?;
    put(page, "\n")
}

/// A line for each order that was answered.
pub(crate) fn put_orders(page: &mut String, orders: &[OrderLine]) -> Result<(), NoMemory>
    ensures { OnOk result (string_bytes page.new ≡ string_bytes page.old ++ flat_map order_line orders.now) }
{
    for order in orders {
        put_order(page, order)?;
    }
    Ok(())
}
