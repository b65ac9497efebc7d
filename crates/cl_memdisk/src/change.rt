// Changes of a file's bytes, each with what it needs to be taken back.
ghost use Rattle.std.specs.Prelude.{◌≡◌, ◌+◌, ◌-◌, ◌≤◌, length, take, drop, min, IfOk, OnOk, OnErr};
ghost use Rattle.std.specs.Prelude.{vec_capacity};
ghost use Rattle.cl_base.specs.Disk.{overwritten};

use cl_base::NoMemory;

/// The bytes from `from` up to `end` were written or cut off, and `was` stood there.
#[derive(Drop)]
pub struct Change {
    pub from: usize,
    pub end: usize,
    pub was: Vec<u8>,
}

impl Change {
    ghost use Rattle.cl_memdisk.specs.Changes.{taken_back, InPlace};

    /// Keeps what stands in a range, as far as the bytes go.
    pub fn keep(bytes: &Vec<u8>, from: usize, end: usize) -> Result<Change, NoMemory>
        requires starts { from ≤ length bytes.now.items }
        requires ends { from ≤ end }
        ensures range { IfOk result (λ c. (c.from ≡ from) × (c.end ≡ end)) }
        ensures was { IfOk result (λ c. c.was.items ≡ take (end - from) (drop from bytes.now.items)) }
    {
        let kept = end.min(bytes.len());
        match bytes[from..kept].to_vec(*bytes.allocator()) {
            Ok(was) => Ok(Change { from, end, was }),
            Err(_) => Err(NoMemory),
        }
    }

    /// Puts back what stood there.
    pub fn take_back(&self, bytes: &mut Vec<u8>)
        requires { InPlace (vec_capacity bytes.old) self.now bytes.old.items }
        ensures items { bytes.new.items ≡ taken_back self.now bytes.old.items }
        ensures room { vec_capacity bytes.old ≤ vec_capacity bytes.new }
    {
        if self.end < bytes.len() {
            bytes[self.from..self.end].copy_from_slice(&self.was);
            return;
        }
        bytes.truncate(self.from);
        let Ok(()) = bytes.extend_from_slice(&self.was) else {
            unreachable!();
        };
    }
}

/// Bytes over what is there and past the end.
pub fn overwrite(file: &mut Vec<u8>, at: usize, bytes: &[u8]) -> Result<(), NoMemory>
    requires { at ≤ length file.old.items }
    ensures ok { OnOk result (file.new.items ≡ overwritten at bytes.now file.old.items) }
    ensures err { OnErr result (file.new.items ≡ file.old.items) }
    ensures room { vec_capacity file.old ≤ vec_capacity file.new }
{
    let head = bytes.len().min(file.len() - at);
    if file.extend_from_slice(&bytes[head..]).is_err() {
        return Err(NoMemory);
    }
    file[at..at + head].copy_from_slice(&bytes[..head]);
    Ok(())
}
