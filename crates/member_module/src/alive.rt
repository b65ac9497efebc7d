// The keep-alives of a reign.
ghost use Rattle.std.specs.Prelude.{◌≡◌, OnErr, OnOk};
ghost use Rattle.member_module.specs.Held.{heard};

use cl_base::NoMemory;

/// A keep-alive of a session was accepted at `now` (ms).
pub fn hear(alive: &mut Vec<(i64, u64)>, session: i64, now: u64) -> Result<(), NoMemory>
    ensures ok { OnOk result (alive.new.items ≡ heard session now alive.old.items) }
    ensures err { OnErr result (alive.new.items ≡ alive.old.items) }
{
    match alive.iter().position(|kept| kept.0 == session) {
        Some(at) => {
            alive[at] = (session, now);
            Ok(())
        }
        None => match alive.push((session, now)) {
            Ok(()) => Ok(()),
            Err(_) => Err(NoMemory),
        },
    }
}
