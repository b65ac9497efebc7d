// The node state.
ghost use Rattle.std.specs.Prelude.{◌≡◌, ◌≢◌, ◌⊎◌, ◌+◌, ◌-◌, ◌*◌, ◌<◌, ◌≤◌, ◌^◌, ℕ, ℤ, pos, negsuc, ◌<ℤ◌, ◌≤ℤ◌, ◌==◌, ◌&&◌, if◌then◌else◌, List, length, IsTrue, Some, None, Err, OnOk, OnErr, IsErrOf, IfSome, IfOk, IfErr, slice_index};
ghost use Rattle.cl_base.specs.Counts.{HasCause};
ghost use Rattle.cl_base.specs.Disk.{ChangesFile, OthersStay, IsImageOf, LeavesOnly, settled_file, left_by};
ghost use Rattle.cl_base.specs.Fuse.{FuseEnds};
ghost use Rattle.cl_base.specs.Looks.{Looks, Same};
ghost use Rattle.cl_base.specs.Faults.{HasMountCause};
ghost use Rattle.cl_base.specs.declared.disk.Choice.{Choice};
ghost use Rattle.node_state.specs.Node.{Node, Tells, BeforeOrAfter, names_slot, member_of, StandsFor, IsWrongAt, IsTerm, AllOld, AllStand, IsSettled, IsVersionTwo, Stays, LeavesNode, mount_calls, migrated};
ghost use Rattle.wire_prims.specs.Fields.{u32_at};
ghost use Rattle.node_state.specs.Steps.{AllTell, EachTells, IsReady, IsRaise, RaiseLeft, staged, selected};

use cl_base::{Disk, MemberFault, Trouble, read_some, write_through};
use std::marker::Model;
use wire_prims::{get_i64, get_u32};

/// The candidate term and the member voted for in it, as the first file of a member tells them.
#[derive(Drop)]
pub struct NodeState {
    slot: usize,
    term: i64,
    voted: Option<u8>,
}

impl Model for NodeState {
    ghost use Rattle.std.specs.Prelude.{◌<◌, IfSome};
    ghost use Rattle.node_state.specs.Node.{Node, IsTerm};

    ghost Value = { Node };

    ghost view = { λ s. record { slot = s.slot; term = s.term; voted = s.voted } };

    ghost invariant = { λ s. (s.slot < 2) × IsTerm s.term × IfSome s.voted (λ m. m < 5) };
}

/// Has a slot's fields on the disk.
#[tactic(auto, unfolding(wire_prims::specs::Fields::le32, wire_prims::specs::Fields::le64))]
fn stage<D: Disk>(disk: &mut D, slot: usize, bits: u64, member: u32) -> Result<(), Trouble>
    requires slot { slot < 2 }
    requires size { IsTrue (D.tells disk.old) → length ((D.state disk.old).files 0).reads ≡ 32 }
    ensures cause { HasCause (D.fault_count disk.old) (D.fault_count disk.new) result }
    ensures tells { D.tells disk.new ≡ D.tells disk.old }
    ensures honest { D.is_honest disk.new ≡ D.is_honest disk.old }
    ensures others { IsTrue (D.tells disk.old) → OthersStay 0 (D.state disk.old).files (D.state disk.new).files }
    ensures done { IsTrue (D.tells disk.old) → OnOk result (ChangesFile 0 (D.state disk.old).files (D.state disk.new).files (settled_file (staged slot bits member ((D.state disk.old).files 0).reads))) }
    ensures keeps { IsTrue (D.is_honest disk.old) → (node : Node) → node.slot ≡ 1 - slot → AllTell node (D.state disk.old).files (D.state disk.old).files
        → AllTell node (D.state disk.old).files (D.state disk.new).files }
    ensures cut_well { IsTrue (D.is_honest disk.old) → (node after : Node) → node.slot ≡ 1 - slot → AllTell node (D.state disk.old).files (D.state disk.old).files
        → LeavesOnly D.moment D.left_since disk.old disk.new (BeforeOrAfter (D.state disk.old).files node after) }
    ensures fuse { IsTrue (D.tells disk.old) → FuseEnds 3 Trouble.Failed (λ _ _. Unit {0}) (D.state disk.old) (D.state disk.new) result }
{
    disk.write_at(0, 8 * slot as u64, &bits.to_le_bytes())?;
    disk.write_at(0, 20 + 4 * slot as u64, &member.to_le_bytes())?;
    disk.sync(0)?;
    Ok(())
}

/// Has a slot selected on the disk.
fn select<D: Disk>(disk: &mut D, slot: usize) -> Result<(), Trouble>
    requires slot { slot < 2 }
    requires size { IsTrue (D.tells disk.old) → length ((D.state disk.old).files 0).reads ≡ 32 }
    ensures cause { HasCause (D.fault_count disk.old) (D.fault_count disk.new) result }
    ensures tells { D.tells disk.new ≡ D.tells disk.old }
    ensures honest { D.is_honest disk.new ≡ D.is_honest disk.old }
    ensures others { IsTrue (D.tells disk.old) → OthersStay 0 (D.state disk.old).files (D.state disk.new).files }
    ensures done { IsTrue (D.tells disk.old) → OnOk result (ChangesFile 0 (D.state disk.old).files (D.state disk.new).files (settled_file (selected slot ((D.state disk.old).files 0).reads))) }
    ensures cut_well { IsTrue (D.is_honest disk.old) → (before after : Node) (bytes : List ℕ) → IsReady before after bytes → (D.state disk.old).files 0 ≡ settled_file bytes
        → LeavesOnly D.moment D.left_since disk.old disk.new (BeforeOrAfter (D.state disk.old).files before after) }
    ensures keeps { IsTrue (D.is_honest disk.old) → (before after : Node) (bytes : List ℕ) → IsReady before after bytes → (D.state disk.old).files 0 ≡ settled_file bytes
        → EachTells before after (D.state disk.old).files (D.state disk.new).files }
    ensures fuse { IsTrue (D.is_honest disk.old) → (before after : Node) (bytes : List ℕ) → IsReady before after bytes → after.slot ≡ slot → (D.state disk.old).files 0 ≡ settled_file bytes
        → FuseEnds 2 Trouble.Failed (λ left k. (choice : Choice) → Tells (if (k == 1) && names_slot slot choice then after else before) (left_by choice (left.files 0)))
        (D.state disk.old) (D.state disk.new) result }
{
    match disk.write_at(0, 16, &[slot as u8]) {
        Ok(()) => disk.sync(0),
        Err(trouble) => Err(trouble),
    }
}

/// Raises what the file tells.
#[tactic(auto, unfolding(wire_prims::specs::Fields::le32, wire_prims::specs::Fields::le64))]
fn raise_file<D: Disk>(disk: &mut D, slot: usize, bits: u64, member: u32) -> Result<(), Trouble>
    requires slot { slot < 2 }
    requires size { IsTrue (D.tells disk.old) → length ((D.state disk.old).files 0).reads ≡ 32 }
    ensures cause { HasCause (D.fault_count disk.old) (D.fault_count disk.new) result }
    ensures tells { D.tells disk.new ≡ D.tells disk.old }
    ensures honest { D.is_honest disk.new ≡ D.is_honest disk.old }
    ensures others { IsTrue (D.tells disk.old) → OthersStay 0 (D.state disk.old).files (D.state disk.new).files }
    ensures told { IsTrue (D.tells disk.old) → (before after : Node) → IsRaise slot bits member before after → Tells before ((D.state disk.old).files 0).reads
        → OnOk result (Tells after ((D.state disk.new).files 0).reads) }
    ensures done { IsTrue (D.is_honest disk.old) → (before after : Node) → IsRaise slot bits member before after → AllTell before (D.state disk.old).files (D.state disk.old).files
        → OnOk result (AllTell after (D.state disk.old).files (D.state disk.new).files) }
    ensures each { IsTrue (D.is_honest disk.old) → (before after : Node) → IsRaise slot bits member before after → AllTell before (D.state disk.old).files (D.state disk.old).files
        → EachTells before after (D.state disk.old).files (D.state disk.new).files }
    ensures cut_well { IsTrue (D.is_honest disk.old) → (before after : Node) → IsRaise slot bits member before after → AllTell before (D.state disk.old).files (D.state disk.old).files
        → LeavesOnly D.moment D.left_since disk.old disk.new (BeforeOrAfter (D.state disk.old).files before after) }
    ensures fuse { IsTrue (D.is_honest disk.old) → (before after : Node) → IsRaise slot bits member before after → AllTell before (D.state disk.old).files (D.state disk.old).files
        → FuseEnds 5 Trouble.Failed (RaiseLeft before after slot) (D.state disk.old) (D.state disk.new) result }
{
    match stage(disk, slot, bits, member) {
        Ok(()) => select(disk, slot),
        Err(trouble) => Err(trouble),
    }
}

impl NodeState {
    ghost use Rattle.cl_base.specs.Faults.{HasDeviceCause};
    ghost use Rattle.node_state.specs.Node.{raised};

    /// Reads what the file tells. One of version 1, with nobody voted for, is made one of version 2. Damaged is at the
    /// file's length where it is below 32, at 32 where it is above, and else at the first byte of the slot that counts
    /// where its term is outside -1 to 2^62.
    pub fn mount<D: Disk>(disk: &mut D) -> Result<NodeState, MemberFault>
        ensures cause { HasMountCause (D.fault_count disk.old) (D.fault_count disk.new) result }
        ensures tells { D.tells disk.new ≡ D.tells disk.old }
        ensures honest { D.is_honest disk.new ≡ D.is_honest disk.old }

        ensures others { IsTrue (D.tells disk.old) → OthersStay 0 (D.state disk.old).files (D.state disk.new).files }

        // It gives what the file stands for, and is damaged exactly at the first wrong place; then nothing is changed.
        ensures gives { IsTrue (D.tells disk.old) → IfOk result (StandsFor ((D.state disk.old).files 0).reads) }
        ensures damaged { IsTrue (D.tells disk.old) → (file place : ℕ) → result ≡ Err (MemberFault.Damaged file place)
            → (file ≡ 0) × IsWrongAt ((D.state disk.old).files 0).reads place × Same (D.state disk.old) (D.state disk.new) }
        ensures mounted { IsTrue (D.tells disk.old) → IfOk result (λ s. Tells s ((D.state disk.new).files 0).reads) }

        // Where a crash before would leave what a read gives, each image stands for it all along, and after Ok each
        // image tells it.
        ensures done { IsTrue (D.is_honest disk.old) → IsSettled (D.state disk.old).files → IfOk result (λ s. AllTell s (D.state disk.old).files (D.state disk.new).files) }
        ensures keeps { IsTrue (D.is_honest disk.old) → IsSettled (D.state disk.old).files
            → (node : Node) → StandsFor ((D.state disk.old).files 0).reads node
            → AllStand node (D.state disk.old).files (D.state disk.new).files
            × LeavesOnly D.moment D.left_since disk.old disk.new (Stays (D.state disk.old).files node) }

        // A file of version 2 is only looked at: no changing call is made.
        ensures looks { IsTrue (D.tells disk.old) → IsVersionTwo ((D.state disk.old).files 0).reads → Looks MemberFault.Device (D.state disk.old) (D.state disk.new) result }
        ensures any_moment { IsTrue (D.is_honest disk.old) → IsVersionTwo ((D.state disk.old).files 0).reads → LeavesOnly D.moment D.left_since disk.old disk.new (IsImageOf (D.state disk.old).files) }

        // A file of version 2 takes no changing call, one of version 1 takes four. Where a fuse ends them each choice
        // leaves what stands for the same.
        ensures fuse { IsTrue (D.is_honest disk.old) → IsSettled (D.state disk.old).files
            → (node : Node) → StandsFor ((D.state disk.old).files 0).reads node
            → FuseEnds (mount_calls ((D.state disk.old).files 0).reads) MemberFault.Device (LeavesNode node) (D.state disk.old) (D.state disk.new) result }
    {
        match inspect(disk) {
            Ok((node, true)) => Ok(node),
            Ok((node, false)) => match migrate(disk) {
                Ok(()) => Ok(node),
                Err(trouble) => Err(MemberFault::from(trouble)),
            },
            Err(fault) => Err(fault),
        }
    }

    /// The candidate term, -1 to 2^62, where -1 is none.
    pub fn candidate_term(&self) -> i64
        ensures value { result ≡ self.now.term }
        ensures range { IsTerm result }
    {
        self.term
    }

    /// The member voted for in the candidate term, 0 to 4.
    pub fn voted(&self) -> Option<u8>
        ensures value { result ≡ self.now.voted }
        ensures range { IfSome result (λ m. m < 5) }
    {
        self.voted
    }

    /// Raises the candidate term, at most 2^62, with the member voted for in it, 0 to 4. The slot that doesn't count is
    /// written and synced, and only then the selector names it. It takes no memory of its own. After an error the value
    /// is only given up.
    pub fn raise<D: Disk>(
        &mut self,
        disk: &mut D,
        term: i64,
        voted: Option<u8>,
    ) -> Result<(), MemberFault>
        requires above { self.old.term <ℤ term }
        requires high { term ≤ℤ pos (2 ^ 62) }
        requires member { IfSome voted (λ m. m < 5) }
        requires mounted { IsTrue (D.tells disk.old) → Tells self.old ((D.state disk.old).files 0).reads }

        ensures ok { OnOk result (self.new ≡ raised self.old term voted) }
        ensures err { OnErr result (self.new ≡ self.old) }
        ensures cause { HasDeviceCause (D.fault_count disk.old) (D.fault_count disk.new) result }
        ensures tells { D.tells disk.new ≡ D.tells disk.old }
        ensures honest { D.is_honest disk.new ≡ D.is_honest disk.old }
        ensures others { IsTrue (D.tells disk.old) → OthersStay 0 (D.state disk.old).files (D.state disk.new).files }

        // After Ok the file tells the new state.
        ensures raised { IsTrue (D.tells disk.old) → OnOk result (Tells (raised self.old term voted) ((D.state disk.new).files 0).reads) }

        // After Ok each image tells the new state. The other files are as they were.
        ensures done { IsTrue (D.is_honest disk.old) → AllTell self.old (D.state disk.old).files (D.state disk.old).files
            → OnOk result (AllTell (raised self.old term voted) (D.state disk.old).files (D.state disk.new).files) }

        // After any answer each image tells the old state or the new one.
        ensures each { IsTrue (D.is_honest disk.old) → AllTell self.old (D.state disk.old).files (D.state disk.old).files
            → EachTells self.old (raised self.old term voted) (D.state disk.old).files (D.state disk.new).files }

        // Each image at any moment of the call tells one of them.
        ensures cut_well { IsTrue (D.is_honest disk.old) → AllTell self.old (D.state disk.old).files (D.state disk.old).files
            → LeavesOnly D.moment D.left_since disk.old disk.new (BeforeOrAfter (D.state disk.old).files self.old (raised self.old term voted)) }

        // A fuse ends it where it lets fewer than five calls pass, and then each choice leaves the old state, but for
        // the choices that take the selector along at four.
        ensures fuse { IsTrue (D.is_honest disk.old) → AllTell self.old (D.state disk.old).files (D.state disk.old).files
            → FuseEnds 5 MemberFault.Device (RaiseLeft self.old (raised self.old term voted) (1 - self.old.slot)) (D.state disk.old) (D.state disk.new) result }
    {
        let slot = 1 - self.slot;
        match raise_file(disk, slot, term.cast_unsigned(), number_of(voted)) {
            Ok(()) => {
                self.slot = slot;
                self.term = term;
                self.voted = voted;
                Ok(())
            }
            Err(trouble) => Err(MemberFault::from(trouble)),
        }
    }
}

fn number_of(voted: Option<u8>) -> u32
    requires { IfSome voted (λ m. m < 5) }
    ensures { member_of result ≡ voted }
{
    match voted {
        None => u32::MAX,
        Some(member) => u32::from(member),
    }
}

/// What the bytes of the file stand for, and whether they are of version 2, or the place where they are first wrong.
fn read_node(bytes: &[u8]) -> Result<(NodeState, bool), u64>
    ensures ok { IfOk result (λ x. StandsFor bytes.now x.0 × (x.1 ≡ (slice_index bytes.now 17 == 2))) }
    ensures wrong { IfErr result (IsWrongAt bytes.now) }
{
    let len = bytes.len() as u64;
    if len < 32 {
        return Err(len);
    }
    if len > 32 {
        return Err(32);
    }
    let slot = (bytes[16] % 2) as usize;
    let term = get_i64(bytes, 8 * slot);
    if term < -1 || term > 1 << 62 {
        return Err(8 * slot as u64);
    }
    let is_two = bytes[17] == 2;
    let voted = if is_two {
        member_at(bytes, 20 + 4 * slot)
    } else {
        None
    };
    Ok((NodeState { slot, term, voted }, is_two))
}

fn member_at(bytes: &[u8], at: usize) -> Option<u8>
    requires { at + 4 ≤ length bytes.now }
    ensures value { result ≡ member_of (u32_at at bytes.now) }
    ensures range { IfSome result (λ m. m < 5) }
{
    let n = get_u32(bytes, at);
    if n <= 4 { Some(n as u8) } else { None }
}

/// Makes a file of version 1 one of version 2, which stands for the same.
fn migrate<D: Disk>(disk: &mut D) -> Result<(), Trouble>
    requires size { IsTrue (D.tells disk.old) → length ((D.state disk.old).files 0).reads ≡ 32 }
    ensures cause { HasCause (D.fault_count disk.old) (D.fault_count disk.new) result }
    ensures tells { D.tells disk.new ≡ D.tells disk.old }
    ensures honest { D.is_honest disk.new ≡ D.is_honest disk.old }
    ensures others { IsTrue (D.tells disk.old) → OthersStay 0 (D.state disk.old).files (D.state disk.new).files }
    ensures done { IsTrue (D.tells disk.old) → OnOk result (ChangesFile 0 (D.state disk.old).files (D.state disk.new).files (settled_file (migrated ((D.state disk.old).files 0).reads))) }
    ensures fuse { IsTrue (D.tells disk.old) → FuseEnds 4 Trouble.Failed (λ _ _. Unit {0}) (D.state disk.old) (D.state disk.new) result }
    ensures each { IsTrue (D.is_honest disk.old) → (node : Node) → AllOld node (D.state disk.old).files → AllStand node (D.state disk.old).files (D.state disk.new).files }
    ensures cut_well { IsTrue (D.is_honest disk.old) → (node : Node) → AllOld node (D.state disk.old).files
        → LeavesOnly D.moment D.left_since disk.old disk.new (Stays (D.state disk.old).files node) }
{
    match write_through(disk, 0, 20, &[255; 8]) {
        Ok(()) => write_through(disk, 0, 17, &[2]),
        Err(trouble) => Err(trouble),
    }
}

/// Reads what the file tells, and whether it is of version 2. It changes nothing.
fn inspect<D: Disk>(disk: &mut D) -> Result<(NodeState, bool), MemberFault>
    ensures cause { HasMountCause (D.fault_count disk.old) (D.fault_count disk.new) result }
    ensures tells { D.tells disk.new ≡ D.tells disk.old }
    ensures honest { D.is_honest disk.new ≡ D.is_honest disk.old }
    ensures gives { IsTrue (D.tells disk.old) → IfOk result (λ x. StandsFor ((D.state disk.old).files 0).reads x.0 × (x.1 ≡ (slice_index ((D.state disk.old).files 0).reads 17 == 2))) }
    ensures damaged { IsTrue (D.tells disk.old) → (file place : ℕ) → result ≡ Err (MemberFault.Damaged file place) → (file ≡ 0) × IsWrongAt ((D.state disk.old).files 0).reads place }
    ensures looks { IsTrue (D.tells disk.old) → Looks MemberFault.Device (D.state disk.old) (D.state disk.new) result }
    ensures any_moment { IsTrue (D.is_honest disk.old) → LeavesOnly D.moment D.left_since disk.old disk.new (IsImageOf (D.state disk.old).files) }
{
    let mut bytes = [0; 33];
    match read_some(disk, 0, 0, &mut bytes) {
        Ok(n) => match read_node(&bytes[..n]) {
            Ok(read) => Ok(read),
            Err(place) => Err(MemberFault::Damaged { file: 0, place }),
        },
        Err(trouble) => Err(MemberFault::from(trouble)),
    }
}
