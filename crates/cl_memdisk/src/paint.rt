// A byte over all that was changed.
ghost use Rattle.std.specs.Prelude.{◌≡◌, ◌⊎◌, ℕ, ◌<◌, ◌≤◌, length, map, slice_index};
ghost use Rattle.cl_base.specs.Disk.{painted};
ghost use Rattle.cl_memdisk.specs.Changes.{range_of};

use crate::change::Change;

/// A byte from one place up to another, as far as the bytes go.
fn fill(bytes: &mut [u8], from: usize, end: usize, x: u8)
    ensures inside { (k : ℕ) → k < length bytes.old → from ≤ k → k < end → slice_index bytes.new k ≡ x }
    ensures outside { (k : ℕ) → k < from ⊎ end ≤ k → slice_index bytes.new k ≡ slice_index bytes.old k }
{
    for i in from..end.min(bytes.len()) {
        bytes[i] = x;
    }
}

/// A byte in the range of each change, and from a place on.
pub fn paint(bytes: &mut [u8], changes: &[Change], end: usize, x: u8)
    ensures { bytes.new ≡ painted x (map range_of changes.now) end 0 bytes.old }
{
    for change in changes {
        fill(bytes, change.from, change.end, x);
    }
    let len = bytes.len();
    fill(bytes, end, len, x);
}
