// The text of a report's lines.
ghost use Rattle.std.specs.Prelude.{◌≡◌, ◌++◌, OnOk, string_bytes};
ghost use Rattle.run_report.specs.Text.{word_of, entry_line, run_line, origin_text, record_line, client_line, got_line, member_front, commit_text, member_back, member_line, unread_line, damaged_line, backup_line, backup_unread_line, backup_damaged_line, set_line, made_front, made_back, line_text};

use crate::line::{BackupAt, EntryKind, Line, Made, MemberAt, RunAt};
use cl_base::{Entry, NoMemory};
use cluster_client::Got;
use egress::Sent;
use line_text::{put, put_bytes, put_count, put_hex};
use recording_log::SnapshotAt;

/// The word that begins an entry's line.
fn word_of(kind: EntryKind) -> &'static str
    ensures { result.now ≡ word_of kind }
{
    match kind {
        EntryKind::Printed => "entry",
        EntryKind::Consumed => "in",
        EntryKind::Own => "own",
    }
}

#[tactic(auto, unfolding(crate::specs::Text::entry_line))]
fn put_entry(page: &mut String, kind: EntryKind, index: u64, entry: &Entry) -> Result<(), NoMemory>
    ensures { OnOk result (string_bytes page.new ≡ string_bytes page.old ++ entry_line kind index entry.now) }
{
    let (word, term) = (word_of(kind), entry.term);
    write!(page, "{word} {index} {term} ")?;
    put_bytes(page, entry.bytes.as_slice())?;
    put(page, "\n")
}

fn put_run(page: &mut String, at: RunAt, count: usize) -> Result<(), NoMemory>
    ensures { OnOk result (string_bytes page.new ≡ string_bytes page.old ++ run_line at count) }
{
    let (member, service, number, from) = (at.member, at.service, at.run, at.from);
    write!(page, "service {member} {service} run {number}")?;
    write!(page, " from {from} count {count}\n")?;
    Ok(())
}

fn put_origin(page: &mut String, sent: &Sent) -> Result<(), NoMemory>
    ensures { OnOk result (string_bytes page.new ≡ string_bytes page.old ++ origin_text sent.now.entry sent.now.service sent.now.number) }
{
    match (sent.entry, sent.service) {
        (None, _) => write!(page, "- direct")?,
        (Some(entry), None) => write!(page, "{entry} module")?,
        (Some(entry), Some(service)) => {
            let number = sent.number;
            write!(page, "{entry} service {service}")?;
            write!(page, " {number}")?;
        }
    }
    Ok(())
}

#[tactic(auto, unfolding(crate::specs::Text::record_line))]
fn put_record(page: &mut String, sent: &Sent) -> Result<(), NoMemory>
    ensures { OnOk result (string_bytes page.new ≡ string_bytes page.old ++ record_line sent.now) }
{
    put(page, "out ")?;
    put_origin(page, sent)?;
    put(page, " ")?;
    put_hex(page, sent.bytes.as_slice())?;
    put(page, "\n")
}

#[tactic(auto, unfolding(crate::specs::Text::got_line))]
fn put_got(page: &mut String, got: &Got) -> Result<(), NoMemory>
    ensures { OnOk result (string_bytes page.new ≡ string_bytes page.old ++ got_line got.now) }
{
    let term = got.term;
    write!(page, "got {term} ")?;
    put_hex(page, got.payload.as_slice())?;
    put(page, "\n")
}

fn put_member_front(page: &mut String, end: &MemberAt) -> Result<(), NoMemory>
    ensures { OnOk result (string_bytes page.new ≡ string_bytes page.old ++ member_front end.now) }
{
    let (member, candidate, entries, same) = (end.member, end.candidate, end.entries, end.same);
    let state = if end.commit.is_some() { "up" } else { "down" };
    write!(page, "member {member} {state}")?;
    write!(page, " candidate {candidate} entries {entries}")?;
    write!(page, " same {same}")?;
    Ok(())
}

fn put_commit(page: &mut String, commit: Option<u64>) -> Result<(), NoMemory>
    ensures { OnOk result (string_bytes page.new ≡ string_bytes page.old ++ commit_text commit) }
{
    match commit {
        Some(commit) => put_count(page, "", commit),
        None => put(page, "-"),
    }
}

fn put_member_back(page: &mut String, commit: Option<u64>, sets: usize) -> Result<(), NoMemory>
    ensures { OnOk result (string_bytes page.new ≡ string_bytes page.old ++ member_back commit sets) }
{
    put(page, " commit ")?;
    put_commit(page, commit)?;
    put_count(page, " snapshots ", sets as u64)?;
    put(page, "\n")
}

fn put_member(page: &mut String, end: &MemberAt, sets: usize) -> Result<(), NoMemory>
    ensures { OnOk result (string_bytes page.new ≡ string_bytes page.old ++ member_line end.now sets) }
{
    put_member_front(page, end)?;
    put_member_back(page, end.commit, sets)
}

fn put_unread(page: &mut String, member: u8) -> Result<(), NoMemory>
    ensures { OnOk result (string_bytes page.new ≡ string_bytes page.old ++ unread_line member) }
{
    put_count(page, "member ", member as u64)?;
    put(page, " down unread")?;
    put(page, "\n")
}

fn put_damaged(page: &mut String, member: u8, file: u32, place: u64) -> Result<(), NoMemory>
    ensures { OnOk result (string_bytes page.new ≡ string_bytes page.old ++ damaged_line member file place) }
{
    put_count(page, "member ", member as u64)?;
    put_count(page, " down damaged ", file as u64)?;
    put_count(page, " ", place)?;
    put(page, "\n")
}

fn put_backup(page: &mut String, end: BackupAt, sets: usize) -> Result<(), NoMemory>
    ensures { OnOk result (string_bytes page.new ≡ string_bytes page.old ++ backup_line end sets) }
{
    put_count(page, "backup entries ", end.entries)?;
    put_count(page, " same ", end.same)?;
    put_count(page, " snapshots ", sets as u64)?;
    put(page, "\n")
}

fn put_backup_unread(page: &mut String) -> Result<(), NoMemory>
    ensures { OnOk result (string_bytes page.new ≡ string_bytes page.old ++ backup_unread_line) }
{
    put(page, "backup unread\n")
}

fn put_backup_damaged(page: &mut String, file: u32, place: u64) -> Result<(), NoMemory>
    ensures { OnOk result (string_bytes page.new ≡ string_bytes page.old ++ backup_damaged_line file place) }
{
    put_count(page, "backup damaged ", file as u64)?;
    put_count(page, " ", place)?;
    put(page, "\n")
}

#[tactic(auto, unfolding(crate::specs::Text::set_line))]
fn put_set(page: &mut String, set: &SnapshotAt) -> Result<(), NoMemory>
    ensures { OnOk result (string_bytes page.new ≡ string_bytes page.old ++ set_line set.now) }
{
    let (position, term) = (set.position, set.term);
    write!(page, "snapshot {position} {term}\n")?;
    Ok(())
}

fn put_made_front(page: &mut String, made: Made) -> Result<(), NoMemory>
    ensures { OnOk result (string_bytes page.new ≡ string_bytes page.old ++ made_front made) }
{
    let (messages, entries, place, terms) = (made.messages, made.entries, made.place, made.terms);
    write!(page, "made {messages}\nentries {entries}\n")?;
    write!(page, "place {place}\nterms {terms}\n")?;
    Ok(())
}

fn put_made_back(page: &mut String, made: Made) -> Result<(), NoMemory>
    ensures { OnOk result (string_bytes page.new ≡ string_bytes page.old ++ made_back made) }
{
    let (refused, egress, inputs) = (made.refused, made.egress, made.inputs);
    write!(page, "refused {refused}\negress {egress}\n")?;
    write!(page, "inputs {inputs}\n")?;
    Ok(())
}

fn put_made(page: &mut String, made: Made) -> Result<(), NoMemory>
    ensures { OnOk result (string_bytes page.new ≡ string_bytes page.old ++ (made_front made ++ made_back made)) }
{
    put_made_front(page, made)?;
    put_made_back(page, made)
}

/// One line behind what is there.
#[tactic(auto, unfolding(crate::specs::Text::line_text))]
pub fn put_line(page: &mut String, line: &Line) -> Result<(), NoMemory>
    ensures { OnOk result (string_bytes page.new ≡ string_bytes page.old ++ line_text line.now) }
{
    match line {
        Line::Log { entries } => write!(page, "log {entries}\n")?,
        Line::Entry { kind, index, entry } => put_entry(page, *kind, *index, entry)?,
        Line::Run { at, count } => put_run(page, *at, *count)?,
        Line::Stream { stream, count } => write!(page, "stream {stream} egress {count}\n")?,
        Line::Record(sent) => put_record(page, sent)?,
        Line::Client { client, count } => write!(page, "client {client} handed {count}\n")?,
        Line::Got(got) => put_got(page, got)?,
        Line::Member { end, sets } => put_member(page, end, *sets)?,
        Line::Unread { member } => put_unread(page, *member)?,
        Line::Damaged {
            member,
            file,
            place,
        } => put_damaged(page, *member, *file, *place)?,
        Line::Backup { end, sets } => put_backup(page, *end, *sets)?,
        Line::BackupUnread => put_backup_unread(page)?,
        Line::BackupDamaged { file, place } => put_backup_damaged(page, *file, *place)?,
        Line::Set(set) => put_set(page, set)?,
        Line::Made(made) => put_made(page, *made)?,
        Line::Done => put(page, "done\n")?,
    }
    Ok(())
}
