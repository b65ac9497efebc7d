// All that a run writes.
ghost use Rattle.std.specs.Prelude.{◌≡◌, ◌++◌, OnOk, string_bytes};
ghost use Rattle.echo_run.specs.Text.{member_line};

use crate::entries::{put_entries, put_inputs, put_log};
use crate::run::Run;
use crate::streams::put_streams;
use crate::told::put_orders;
use cl_base::{Bytes, NoMemory};
use line_text::{put, put_count, put_value};
use scenario::Order;
use std::alloc::Global;

fn put_member_line(
    page: &mut String,
    candidate: i64,
    entries: u64,
    same: u64,
    commit: u64,
) -> Result<(), NoMemory>
    ensures { OnOk result (string_bytes page.new ≡ string_bytes page.old ++ member_line candidate entries same commit) }
{
    put_value(page, "member 0 up candidate ", candidate)?;
    put_count(page, " entries ", entries)?;
    put_count(page, " same ", same)?;
    put_count(page, " commit ", commit)?;
    put(page, " snapshots 0")?;
    put(page, "\n")
}

impl Run {
    ghost use Rattle.std.specs.Prelude.{◌≡◌, ◌++◌, IfOk, OnOk, true, string_bytes};
    ghost use Rattle.echo_run.specs.Driver.{IsKept, world_of};
    ghost use Rattle.echo_run.specs.Reported.{own_text, member_text, text_of, run_text};
    ghost use Rattle.echo_run.specs.Form.{is_of_form};

    /// The entries of its log that aren't committed.
    fn put_own(&self, page: &mut String) -> Result<(), NoMemory>
        requires { IsKept self.now }
        ensures { OnOk result (string_bytes page.new ≡ string_bytes page.old ++ own_text (world_of self.now)) }
    {
        let own = &self.log.as_slice()[self.commit as usize..];
        put_entries(page, "own", self.commit, own)
    }

    fn put_member(&self, page: &mut String) -> Result<(), NoMemory>
        requires { IsKept self.now }
        ensures { OnOk result (string_bytes page.new ≡ string_bytes page.old ++ member_text (world_of self.now)) }
    {
        let (entries, commit) = (self.log.len() as u64, self.commit);
        put_member_line(page, self.election.candidate, entries, commit, commit)?;
        self.put_own(page)
    }

    /// The orders that were answered, the log, the service's inputs, the streams and the member.
    fn put_all(&self, page: &mut String) -> Result<(), NoMemory>
        requires { IsKept self.now }
        ensures { OnOk result (string_bytes page.new ≡ string_bytes page.old ++ text_of (world_of self.now)) }
    {
        let log = self.log.as_slice();
        put_orders(page, self.told.as_slice())?;
        put_log(page, &log[..self.commit as usize])?;
        put_inputs(page, &log[..self.consumed as usize])?;
        put_streams(page, self.sent.as_slice())?;
        self.put_member(page)?;
        put(page, "done\n")
    }

    /// What the run so far writes.
    fn text(&self) -> Result<Bytes, NoMemory>
        requires { IsKept self.now }
        ensures { IfOk result (λ t. t ≡ text_of (world_of self.now)) }
    {
        let mut page = String::new(self.alloc);
        self.put_all(&mut page)?;
        Ok(Bytes::from_vec(page.into_bytes()))
    }

    /// What a run of these orders writes.
    pub(crate) fn written(alloc: Global, orders: &[Order]) -> Result<Bytes, NoMemory>
        requires { is_of_form orders.now ≡ true }
        ensures { IfOk result (λ text. text ≡ run_text orders.now) }
    {
        let mut run = Run::new(alloc)?;
        run.steps(orders)?;
        run.text()
    }
}
