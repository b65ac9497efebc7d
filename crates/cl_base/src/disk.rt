// Numbered files, as a member sees them.
ghost use Rattle.std.specs.Prelude.{◌≡◌, ◌≤◌, ℕ, List, Bool, IsTrue, Some, IfOk, length};
ghost use Rattle.cl_base.specs.Counts.{HasCause};
ghost use Rattle.cl_base.specs.Disk.{FileState, DiskState, IsImage, IsImageOf, written_file, cut_file, synced_file, IsTornWrite, IsTornCut, ChangeGives, LookGives, ReadAt, CrashLeaves, Elapses};

use crate::Trouble;

/// What a crash leaves of the bytes that were written and not synced.
#[derive(Clone, Copy, Debug, PartialEq, Eq)]
pub enum Choice {
    /// What the last syncs left.
    Drop,
    /// What a read gave.
    Keep,
    /// What a read gave, with this byte in each range that was written since its file's last sync and past the end
    /// that the file had then.
    Fill(u8),
}

pub trait Disk {
    /// It tells its contents. Where it doesn't, `state` says nothing.
    ghost tells: { Self → Bool };

    /// A crash leaves only what the model of its contents allows.
    ghost is_honest: { Self → Bool };

    /// What it tells.
    ghost state: { Self → DiskState };

    /// How often a call failed, as `faults` answers.
    ghost fault_count: { Self → ℕ };

    /// The moment, a number that only a crash lowers.
    ghost moment: { Self → ℕ };

    /// What a crash at some moment from that one on might have left, during a call or between two.
    ghost left_since: { Self → ℕ → (ℕ → List ℕ) → Type 0 };

    fn faults(&self) -> u64
        ensures { result ≡ fault_count self.now };

    fn len(&mut self, file: u32) -> Result<u64, Trouble>
        ensures cause { HasCause (fault_count self.old) (fault_count self.new) result }
        ensures tells { tells self.new ≡ tells self.old }
        ensures honest { is_honest self.new ≡ is_honest self.old }
        ensures told { IsTrue (tells self.old) → LookGives (λ n. n ≡ length ((state self.old).files file).reads) (state self.old) (state self.new) result }
        ensures time { IsTrue (is_honest self.old) → Elapses (moment self.old) (moment self.new) (left_since self.old) (left_since self.new) (IsImageOf (state self.new).files) };

    fn read_at(&mut self, file: u32, at: u64, buf: &mut [u8]) -> Result<usize, Trouble>
        ensures within { IfOk result (λ n. n ≤ length buf.old) }
        ensures cause { HasCause (fault_count self.old) (fault_count self.new) result }
        ensures tells { tells self.new ≡ tells self.old }
        ensures honest { is_honest self.new ≡ is_honest self.old }
        ensures told { IsTrue (tells self.old) → LookGives (ReadAt ((state self.old).files file).reads at buf.old buf.new) (state self.old) (state self.new) result }
        ensures time { IsTrue (is_honest self.old) → Elapses (moment self.old) (moment self.new) (left_since self.old) (left_since self.new) (IsImageOf (state self.new).files) };

    /// Until a sync, a crash may leave any bytes in the range.
    fn write_at(&mut self, file: u32, at: u64, bytes: &[u8]) -> Result<(), Trouble>
        requires { IsTrue (tells self.old) → at ≤ length ((state self.old).files file).reads }
        ensures cause { HasCause (fault_count self.old) (fault_count self.new) result }
        ensures tells { tells self.new ≡ tells self.old }
        ensures honest { is_honest self.new ≡ is_honest self.old }
        ensures told { IsTrue (tells self.old) → ChangeGives file (written_file at bytes.now) (IsTornWrite at (length bytes.now)) (state self.old) (state self.new) result }
        ensures time { IsTrue (is_honest self.old) → Elapses (moment self.old) (moment self.new) (left_since self.old) (left_since self.new) (IsImageOf (state self.new).files) };

    fn cut(&mut self, file: u32, len: u64) -> Result<(), Trouble>
        requires { IsTrue (tells self.old) → len ≤ length ((state self.old).files file).reads }
        ensures cause { HasCause (fault_count self.old) (fault_count self.new) result }
        ensures tells { tells self.new ≡ tells self.old }
        ensures honest { is_honest self.new ≡ is_honest self.old }
        ensures told { IsTrue (tells self.old) → ChangeGives file (cut_file len) (IsTornCut len) (state self.old) (state self.new) result }
        ensures time { IsTrue (is_honest self.old) → Elapses (moment self.old) (moment self.new) (left_since self.old) (left_since self.new) (IsImageOf (state self.new).files) };

    /// After it a crash leaves of this file what a read gives.
    fn sync(&mut self, file: u32) -> Result<(), Trouble>
        ensures cause { HasCause (fault_count self.old) (fault_count self.new) result }
        ensures tells { tells self.new ≡ tells self.old }
        ensures honest { is_honest self.new ≡ is_honest self.old }
        ensures told { IsTrue (tells self.old) → ChangeGives file synced_file (λ old new. new ≡ old) (state self.old) (state self.new) result }
        ensures time { IsTrue (is_honest self.old) → Elapses (moment self.old) (moment self.new) (left_since self.old) (left_since self.new) (IsImageOf (state self.new).files) };

    /// Lets so many changing calls pass. The next one and every call after it fail.
    fn fuse(&mut self, calls: u64)
        ensures count { fault_count self.new ≡ fault_count self.old }
        ensures tells { tells self.new ≡ tells self.old }
        ensures honest { is_honest self.new ≡ is_honest self.old }
        ensures told { IsTrue (tells self.old) → state self.new ≡ record (state self.old) { lets = Some calls } }
        ensures time { IsTrue (is_honest self.old) → Elapses (moment self.old) (moment self.new) (left_since self.old) (left_since self.new) (IsImageOf (state self.new).files) };

    fn crash(&mut self, choice: Choice)
        ensures count { fault_count self.new ≡ fault_count self.old }
        ensures tells { tells self.new ≡ tells self.old }
        ensures honest { is_honest self.new ≡ is_honest self.old }
        ensures told { IsTrue (tells self.old) → CrashLeaves choice (state self.old) (state self.new) };

    ghost honest_tells: { (d : Self) → IsTrue (is_honest d) → IsTrue (tells d) };

    /// A disk as it reads, and as its last syncs left it, is one of its images.
    ghost reads_is_image: { (d : Self) (f : ℕ) → IsTrue (is_honest d) → IsImage ((state d).files f) ((state d).files f).reads };

    ghost synced_is_image: { (d : Self) (f : ℕ) → IsTrue (is_honest d) → IsImage ((state d).files f) ((state d).files f).synced };

    /// This moment is one of those since an earlier one.
    ghost counts_now: { (d : Self) (t : ℕ) (c : ℕ → List ℕ) → IsTrue (is_honest d) → t ≤ moment d → IsImageOf (state d).files c → left_since d t c };

    /// Since this moment there is no other.
    ghost only_now: { (d : Self) (c : ℕ → List ℕ) → IsTrue (is_honest d) → left_since d (moment d) c → IsImageOf (state d).files c };
}
