// The text of a scenario of the one form.
ghost use Rattle.std.specs.Prelude.{◌≡◌, IfOk, MatchOption, false, true};
ghost use Rattle.echo_run.specs.Form.{is_of_form};
ghost use Rattle.echo_run.specs.Reported.{run_text};

use crate::form::is_of_form;
use crate::run::Run;
use cl_base::{Bytes, NoMemory};
use scenario::Order;
use std::alloc::Global;

/// All that a run of these orders writes, where they are of the one form, else None.
pub fn echoed(alloc: Global, orders: &[Order]) -> Result<Option<Bytes>, NoMemory>
    ensures { IfOk result (λ text. MatchOption text (is_of_form orders.now ≡ false) (λ t. (is_of_form orders.now ≡ true) × (t ≡ run_text orders.now))) }
{
    if !is_of_form(orders) {
        return Ok(None);
    }
    Ok(Some(Run::written(alloc, orders)?))
}
