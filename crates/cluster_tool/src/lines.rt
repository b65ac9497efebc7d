// The text of a listing's lines.
ghost use Rattle.std.specs.Prelude.{◌≡◌, ◌++◌, OnOk, string_bytes};
ghost use Rattle.run_report.specs.Text.{set_line};
ghost use Rattle.cluster_tool.specs.Text.{summary_front, summary_text, term_front, snapshot_front, snapshot_back, snapshot_text, recorded_front, recorded_line, outcome_text, compared_text, line_text};

use crate::compare::{Comparison, Outcome};
use crate::line::{Line, Summary};
use cl_base::NoMemory;
use line_text::put;
use recording_log::{RecEntry, SnapshotAt};

/// The kinds of entries are below this: the highest bit of a kind makes the entry invalid.
const KINDS: u32 = 0x8000_0000;

/// The kind of an entry of a leadership term.
const TERM: u32 = 0;

/// The kind of an entry of a snapshot.
const SNAPSHOT: u32 = 1;

fn put_summary_front(page: &mut String, summary: Summary) -> Result<(), NoMemory>
    ensures { OnOk result (string_bytes page.new ≡ string_bytes page.old ++ summary_front summary) }
{
    let (candidate, entries, place) = (summary.candidate, summary.entries, summary.place);
    write!(page, "candidate {candidate}\nentries {entries}\n")?;
    write!(page, "place {place}\n")?;
    Ok(())
}

fn put_summary(page: &mut String, summary: Summary) -> Result<(), NoMemory>
    ensures { OnOk result (string_bytes page.new ≡ string_bytes page.old ++ summary_text summary) }
{
    put_summary_front(page, summary)?;
    let (terms, sets) = (summary.terms, summary.sets);
    write!(page, "terms {terms}\nsnapshots {sets}\n")?;
    Ok(())
}

#[tactic(auto, unfolding(run_report::specs::Text::set_line))]
fn put_set(page: &mut String, set: &SnapshotAt) -> Result<(), NoMemory>
    ensures { OnOk result (string_bytes page.new ≡ string_bytes page.old ++ set_line set.now) }
{
    let (position, term) = (set.position, set.term);
    write!(page, "snapshot {position} {term}\n")?;
    Ok(())
}

fn put_term(page: &mut String, entry: &RecEntry) -> Result<(), NoMemory>
    ensures { OnOk result (string_bytes page.new ≡ string_bytes page.old ++ term_front entry.now) }
{
    let (term, base, stamp) = (entry.term, entry.base, entry.stamp);
    write!(page, "term {term} base {base} ts {stamp}")?;
    Ok(())
}

fn put_snapshot_front(page: &mut String, entry: &RecEntry) -> Result<(), NoMemory>
    ensures { OnOk result (string_bytes page.new ≡ string_bytes page.old ++ snapshot_front entry.now) }
{
    let (recording, term, base) = (entry.recording, entry.term, entry.base);
    write!(page, "snapshot {recording} term {term} base {base}")?;
    Ok(())
}

fn put_snapshot_back(page: &mut String, entry: &RecEntry) -> Result<(), NoMemory>
    ensures { OnOk result (string_bytes page.new ≡ string_bytes page.old ++ snapshot_back entry.now) }
{
    let (position, stamp, service) = (entry.position, entry.stamp, entry.service);
    write!(page, " position {position} ts {stamp} service {service}")?;
    Ok(())
}

fn put_snapshot(page: &mut String, entry: &RecEntry) -> Result<(), NoMemory>
    ensures { OnOk result (string_bytes page.new ≡ string_bytes page.old ++ snapshot_text entry.now) }
{
    put_snapshot_front(page, entry)?;
    put_snapshot_back(page, entry)
}

/// What an entry tells, by its kind without the highest bit.
fn put_recorded_front(page: &mut String, entry: &RecEntry) -> Result<(), NoMemory>
    ensures { OnOk result (string_bytes page.new ≡ string_bytes page.old ++ recorded_front entry.now) }
{
    let kind = entry.kind % KINDS;
    if kind == TERM {
        return put_term(page, entry);
    }
    if kind == SNAPSHOT {
        return put_snapshot(page, entry);
    }
    put(page, "other")
}

#[tactic(auto, unfolding(crate::specs::Text::recorded_line))]
fn put_recorded(page: &mut String, entry: &RecEntry) -> Result<(), NoMemory>
    ensures { OnOk result (string_bytes page.new ≡ string_bytes page.old ++ recorded_line entry.now) }
{
    put_recorded_front(page, entry)?;
    let end = if entry.is_valid() { "\n" } else { " invalid\n" };
    put(page, end)
}

fn put_outcome(page: &mut String, common: u64, outcome: Outcome) -> Result<(), NoMemory>
    ensures { OnOk result (string_bytes page.new ≡ string_bytes page.old ++ outcome_text common outcome) }
{
    match outcome {
        Outcome::Equal => put(page, "equal\n")?,
        Outcome::FirstLonger => put(page, "first longer\n")?,
        Outcome::SecondLonger => put(page, "second longer\n")?,
        Outcome::Differ { first, second } => {
            write!(page, "differ at {common} terms {first} {second}\n")?;
        }
    }
    Ok(())
}

fn put_compared(page: &mut String, comparison: Comparison) -> Result<(), NoMemory>
    ensures { OnOk result (string_bytes page.new ≡ string_bytes page.old ++ compared_text comparison) }
{
    let common = comparison.common;
    write!(page, "common {common}\n")?;
    put_outcome(page, common, comparison.outcome)
}

/// Lines behind what is there.
#[tactic(auto, unfolding(crate::specs::Text::line_text))]
pub fn put_line(page: &mut String, line: &Line) -> Result<(), NoMemory>
    ensures { OnOk result (string_bytes page.new ≡ string_bytes page.old ++ line_text line.now) }
{
    match line {
        Line::Summary(summary) => put_summary(page, *summary),
        Line::Set(set) => put_set(page, set),
        Line::Recorded(entry) => put_recorded(page, entry),
        Line::Compared(comparison) => put_compared(page, *comparison),
        Line::Done => put(page, "done\n"),
    }
}
