// Bytes that come, and bytes that go.
ghost use Rattle.std.specs.Prelude.{◌≡◌, ◌<◌, ◌≤◌, ◌++◌, ℕ, List, Bool, IsTrue, length, take, IfOk, OnErr};
ghost use Rattle.cl_base.specs.Counts.{HasCause, HasOnlyCause};
ghost use Rattle.cl_base.specs.Stream.{ReadGives};

use crate::{Failed, Trouble};

pub trait Source {
    /// It tells what it has left.
    ghost tells: { Self → Bool };

    /// The bytes left.
    ghost left: { Self → List ℕ };

    ghost fault_count: { Self → ℕ };

    fn faults(&self) -> u64
        ensures { result ≡ fault_count self.now };

    fn read(&mut self, buf: &mut [u8]) -> Result<usize, Failed>
        ensures cause { HasOnlyCause (fault_count self.old) (fault_count self.new) result }
        ensures tells { tells self.new ≡ tells self.old }
        ensures within { IfOk result (λ n. n ≤ length buf.old) }
        ensures told { IsTrue (tells self.old) → IfOk result (ReadGives (left self.old) (left self.new) buf.old buf.new) }
        ensures stays { IsTrue (tells self.old) → OnErr result (left self.new ≡ left self.old) };
}

pub trait Sink {
    /// It tells what it holds.
    ghost tells: { Self → Bool };

    /// The bytes held.
    ghost held: { Self → List ℕ };

    ghost fault_count: { Self → ℕ };

    fn faults(&self) -> u64
        ensures { result ≡ fault_count self.now };

    fn write(&mut self, bytes: &[u8]) -> Result<usize, Trouble>
        ensures cause { HasCause (fault_count self.old) (fault_count self.new) result }
        ensures tells { tells self.new ≡ tells self.old }
        ensures within { IfOk result (λ n. n ≤ length bytes.now) }
        ensures some { IfOk result (λ n. 0 < length bytes.now → 0 < n) }
        ensures told { IsTrue (tells self.old) → IfOk result (λ n. held self.new ≡ held self.old ++ take n bytes.now) }
        ensures stays { IsTrue (tells self.old) → OnErr result (held self.new ≡ held self.old) };
}
