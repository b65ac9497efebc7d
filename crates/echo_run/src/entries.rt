// The lines of entries: the printed log, what the service took, and the entries behind those that are committed.
ghost use Rattle.std.specs.Prelude.{◌≡◌, ◌++◌, ◌+◌, ◌<◌, ◌^◌, OnOk, length, string_bytes};
ghost use Rattle.echo_run.specs.Text.{entry_line, entry_lines, log_text, inputs_text};

use crate::places::term_of;
use cl_base::NoMemory;
use line_text::{put, put_count, put_event};
use sbe_events::Event;

fn put_entry(page: &mut String, word: &str, index: u64, event: &Event) -> Result<(), NoMemory>
    ensures { OnOk result (string_bytes page.new ≡ string_bytes page.old ++ entry_line word.now index event.now) }
{
    let term = term_of(event);
    write!(page, "{word} {index} {term} ")?;
    put_event(page, event)?;
    put(page, "\n")
}

/// A line for each entry, of which the first has this number.
pub(crate) fn put_entries(
    page: &mut String,
    word: &str,
    first: u64,
    entries: &[Event],
) -> Result<(), NoMemory>
    requires { first + length entries.now < 2 ^ 64 }
    ensures { OnOk result (string_bytes page.new ≡ string_bytes page.old ++ entry_lines word.now first entries.now) }
{
    for (i, entry) in entries.iter().enumerate() {
        put_entry(page, word, first + i as u64, entry)?;
    }
    Ok(())
}

/// The printed log, with how many entries it has.
pub(crate) fn put_log(page: &mut String, entries: &[Event]) -> Result<(), NoMemory>
    ensures { OnOk result (string_bytes page.new ≡ string_bytes page.old ++ log_text entries.now) }
{
    put_count(page, "log ", entries.len() as u64)?;
    put(page, "\n")?;
    put_entries(page, "entry", 0, entries)
}

/// What the one run of the service took.
pub(crate) fn put_inputs(page: &mut String, entries: &[Event]) -> Result<(), NoMemory>
    ensures { OnOk result (string_bytes page.new ≡ string_bytes page.old ++ inputs_text entries.now) }
{
    put_count(
        page,
        "service 0 0 run 1 from 0 count ",
        entries.len() as u64,
    )?;
    put(page, "\n")?;
    put_entries(page, "in", 0, entries)
}
