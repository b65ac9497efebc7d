// Edits of a file's bytes that can be taken back.
ghost use Rattle.std.specs.Prelude.{◌≡◌, ◌+◌, ◌≤◌, length, take, OnOk, OnErr};
ghost use Rattle.std.specs.Prelude.{vec_capacity};
ghost use Rattle.cl_base.specs.Disk.{overwritten};
ghost use Rattle.cl_memdisk.specs.Changes.{OneMore, AllInPlace, before_all};

use crate::change::{Change, overwrite};
use cl_base::NoMemory;

/// Writes, and keeps what stood there.
pub fn write_over(
    file: &mut Vec<u8>,
    changes: &mut Vec<Change>,
    at: usize,
    bytes: &[u8],
) -> Result<(), NoMemory>
    requires { at ≤ length file.old.items }
    ensures written { OnOk result (file.new.items ≡ overwritten at bytes.now file.old.items) }
    ensures changed { OnOk result (OneMore (vec_capacity file.new) at (at + length bytes.now) file.old.items file.new.items changes.old.items changes.new.items) }
    ensures err { OnErr result ((file.new.items ≡ file.old.items) × (changes.new.items ≡ changes.old.items)) }
    ensures room { vec_capacity file.old ≤ vec_capacity file.new }
{
    let Some(end) = at.checked_add(bytes.len()) else {
        return Err(NoMemory);
    };
    let change = Change::keep(file, at, end)?;
    if changes.reserve(1).is_err() {
        return Err(NoMemory);
    }
    overwrite(file, at, bytes)?;
    let Ok(()) = changes.push(change) else {
        unreachable!();
    };
    Ok(())
}

/// Cuts, and keeps what stood behind.
pub fn cut_off(file: &mut Vec<u8>, changes: &mut Vec<Change>, len: usize) -> Result<(), NoMemory>
    requires { len ≤ length file.old.items }
    ensures cut { OnOk result (file.new.items ≡ take len file.old.items) }
    ensures changed { OnOk result (OneMore (vec_capacity file.new) len (length file.old.items) file.old.items file.new.items changes.old.items changes.new.items) }
    ensures err { OnErr result ((file.new.items ≡ file.old.items) × (changes.new.items ≡ changes.old.items)) }
    ensures room { vec_capacity file.old ≤ vec_capacity file.new }
{
    let change = Change::keep(file, len, file.len())?;
    if changes.push(change).is_err() {
        return Err(NoMemory);
    }
    file.truncate(len);
    Ok(())
}

/// Marks a range as changed.
pub fn mark(
    file: &Vec<u8>,
    changes: &mut Vec<Change>,
    from: usize,
    end: usize,
) -> Result<(), NoMemory>
    requires starts { from ≤ length file.now.items }
    requires ends { from ≤ end }
    ensures changed { OnOk result (OneMore (vec_capacity file.now) from end file.now.items file.now.items changes.old.items changes.new.items) }
    ensures err { OnErr result (changes.new.items ≡ changes.old.items) }
{
    let change = Change::keep(file, from, end)?;
    if changes.push(change).is_err() {
        return Err(NoMemory);
    }
    Ok(())
}

/// Takes all changes back, the newest first.
pub fn take_all_back(file: &mut Vec<u8>, changes: &mut Vec<Change>)
    requires { AllInPlace (vec_capacity file.old) changes.old.items file.old.items }
    ensures { file.new.items ≡ before_all changes.old.items file.old.items }
{
    while let Some(change) = changes.pop() {
        change.take_back(file);
    }
}
