// Numbers in bytes, the lowest byte first.
ghost use Rattle.std.specs.Prelude.{◌≡◌, ◌+◌, ◌≤◌, length};
ghost use Rattle.cl_base.specs.Disk.{overwritten};
ghost use Rattle.wire_prims.specs.Fields.{u16_at, u32_at, u64_at, i32_at, i64_at, le16, le32, le64, signed32, signed64};

/// The number of two bytes at a place.
#[tactic(auto, unfolding(crate::specs::Fields::u16_at))]
pub fn get_u16(bytes: &[u8], at: usize) -> u16
    requires { at + 2 ≤ length bytes.now }
    ensures { result ≡ u16_at at bytes.now }
{
    let b = &bytes[at..];
    u16::from_le_bytes([b[0], b[1]])
}

/// The number of four bytes at a place.
#[tactic(auto, unfolding(crate::specs::Fields::u32_at))]
pub fn get_u32(bytes: &[u8], at: usize) -> u32
    requires { at + 4 ≤ length bytes.now }
    ensures { result ≡ u32_at at bytes.now }
{
    let b = &bytes[at..];
    u32::from_le_bytes([b[0], b[1], b[2], b[3]])
}

/// The number of eight bytes at a place.
#[tactic(auto, unfolding(crate::specs::Fields::u64_at))]
pub fn get_u64(bytes: &[u8], at: usize) -> u64
    requires { at + 8 ≤ length bytes.now }
    ensures { result ≡ u64_at at bytes.now }
{
    let b = &bytes[at..];
    u64::from_le_bytes([b[0], b[1], b[2], b[3], b[4], b[5], b[6], b[7]])
}

/// The signed number of four bytes at a place.
#[tactic(auto, unfolding(crate::specs::Fields::i32_at))]
pub fn get_i32(bytes: &[u8], at: usize) -> i32
    requires { at + 4 ≤ length bytes.now }
    ensures { result ≡ i32_at at bytes.now }
{
    get_u32(bytes, at).cast_signed()
}

/// The signed number of eight bytes at a place.
#[tactic(auto, unfolding(crate::specs::Fields::i64_at))]
pub fn get_i64(bytes: &[u8], at: usize) -> i64
    requires { at + 8 ≤ length bytes.now }
    ensures { result ≡ i64_at at bytes.now }
{
    get_u64(bytes, at).cast_signed()
}

/// Puts a number of two bytes at a place.
#[tactic(auto, unfolding(crate::specs::Fields::le16))]
pub fn put_u16(bytes: &mut [u8], at: usize, v: u16)
    requires { at + 2 ≤ length bytes.old }
    ensures { bytes.new ≡ overwritten at (le16 v) bytes.old }
{
    bytes[at..at + 2].copy_from_slice(&v.to_le_bytes());
}

/// Puts a number of four bytes at a place.
#[tactic(auto, unfolding(crate::specs::Fields::le32))]
pub fn put_u32(bytes: &mut [u8], at: usize, v: u32)
    requires { at + 4 ≤ length bytes.old }
    ensures { bytes.new ≡ overwritten at (le32 v) bytes.old }
{
    bytes[at..at + 4].copy_from_slice(&v.to_le_bytes());
}

/// Puts a signed number of four bytes at a place.
#[tactic(auto, unfolding(crate::specs::Fields::signed32))]
pub fn put_i32(bytes: &mut [u8], at: usize, v: i32)
    requires { at + 4 ≤ length bytes.old }
    ensures { bytes.new ≡ overwritten at (signed32 v) bytes.old }
{
    put_u32(bytes, at, v.cast_unsigned());
}

#[tactic(auto, unfolding(crate::specs::Fields::le64))]
fn put_u64(bytes: &mut [u8], at: usize, v: u64)
    requires { at + 8 ≤ length bytes.old }
    ensures { bytes.new ≡ overwritten at (le64 v) bytes.old }
{
    bytes[at..at + 8].copy_from_slice(&v.to_le_bytes());
}

/// Puts a signed number of eight bytes at a place.
#[tactic(auto, unfolding(crate::specs::Fields::signed64))]
pub fn put_i64(bytes: &mut [u8], at: usize, v: i64)
    requires { at + 8 ≤ length bytes.old }
    ensures { bytes.new ≡ overwritten at (signed64 v) bytes.old }
{
    put_u64(bytes, at, v.cast_unsigned());
}
