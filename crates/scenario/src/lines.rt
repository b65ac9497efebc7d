// The lines of a text.
ghost use Rattle.std.specs.Prelude.{◌≡◌, ◌<◌, ◌∷◌, length};
ghost use Rattle.scenario.specs.Lines.{lines, is_skipped as skipped, without_return as stripped};

use crate::words::{around, place_of};

/// The first line of a text, and the text behind it.
pub fn first_line(text: &[u8]) -> (&[u8], &[u8])
    requires { 0 < length text.now }
    ensures line { lines text.now ≡ result.0.now ∷ lines result.1.now }
    ensures shorter { length result.1.now < length text.now }
{
    match place_of(text, b'\n') {
        Some(at) => {
            let (line, behind) = around(text, at);
            (without_return(line), behind)
        }
        None => (text, &[]),
    }
}

/// A line that a line feed ends, without one carriage return right before it.
fn without_return(line: &[u8]) -> &[u8]
    ensures { result.now ≡ stripped line.now }
{
    match line {
        [front @ .., b'\r'] => front,
        _ => line,
    }
}

/// An empty line or a comment.
pub fn is_skipped(line: &[u8]) -> bool
    ensures { result ≡ skipped line.now }
{
    line.is_empty() || line[0] == b'#'
}
