// A text is written in blocks.
ghost use Rattle.std.specs.Prelude.{◌≡◌, ◌++◌, IsTrue, OnOk, OnErr};
ghost use Rattle.cl_base.specs.Counts.{HasCause};
ghost use Rattle.line_text.specs.Written.{IsPart};

use cl_base::{Sink, Trouble};

/// How many bytes one call of a sink is asked to take.
pub const BLOCK: usize = 4096;

/// Writes all of a text, or answers why only a part of its front was written.
pub fn give<O: Sink>(sink: &mut O, text: &[u8]) -> Result<(), Trouble>
    ensures cause { HasCause (O.fault_count sink.old) (O.fault_count sink.new) result }
    ensures tells { O.tells sink.new ≡ O.tells sink.old }
    ensures whole { IsTrue (O.tells sink.old) → OnOk result (O.held sink.new ≡ O.held sink.old ++ text.now) }
    ensures part { IsTrue (O.tells sink.old) → OnErr result (IsPart (O.held sink.old) text.now (O.held sink.new)) }
{
    let mut at = 0;
    while at < text.len() {
        let end = at + BLOCK.min(text.len() - at);
        let n = sink.write(&text[at..end])?;
        at += n;
    }
    Ok(())
}
