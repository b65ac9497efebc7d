// What came out of a service, each output with the index of its entry.
ghost use Rattle.std.specs.Prelude.{◌≡◌, ◌++◌, OnOk};
ghost use Rattle.service_api.specs.Service.{numbered};

use cl_base::NoMemory;
use service_api::{Output, Outputs};

/// Puts the outputs of the entry at an index behind those of earlier ones.
pub fn put_out(
    outbox: &mut Vec<(u64, Output)>,
    index: u64,
    outputs: Outputs,
) -> Result<(), NoMemory>
    ensures { OnOk result (outbox.new.items ≡ outbox.old.items ++ numbered index outputs) }
{
    for output in outputs.into_vec() {
        if outbox.push((index, output)).is_err() {
            return Err(NoMemory);
        }
    }
    Ok(())
}
