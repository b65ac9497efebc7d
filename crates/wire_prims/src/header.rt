// The eight bytes before each message.
ghost use Rattle.std.specs.Prelude.{◌≡◌, ◌+◌, ◌*◌, ◌%◌, ◌<◌, ◌≤◌, ◌^◌, ◌↔◌, ◌≢◌, IfOk, length};
ghost use Rattle.wire_prims.specs.Fields.{u16_at};
ghost use Rattle.wire_prims.specs.Header.{bad, numbers_of, header_of, aligned_to};
ghost use Rattle.wire_prims.specs.declared.fault.BadCause.{BadCause};

use crate::field::get_u16;
use crate::{Bad, BadCause};

/// The bytes before a message's block.
pub const HEADER_BYTES: usize = 8;

/// The number of the schema of which every message is.
pub const SCHEMA: u16 = 111;

/// The eight bytes before each message: four numbers of two bytes.
#[derive(Clone, Copy, Debug, PartialEq, Eq)]
pub struct Header {
    /// The length of the block that follows, in bytes.
    pub block: u16,
    /// Which message it is.
    pub template: u16,
    /// The schema of which the message is.
    pub schema: u16,
    /// The version of the schema.
    pub version: u16,
}

/// The header that the bytes begin with. Fewer than 8 bytes are Short at their length, and another schema is Schema
/// at 4.
pub fn read_header(bytes: &[u8]) -> Result<Header, Bad>
    ensures exact { result ≡ header_of bytes.now }
    ensures found { IfOk result (λ h. (h ≡ numbers_of bytes.now) × (h.schema ≡ SCHEMA) × (8 ≤ length bytes.now)) }
    ensures short { (result ≡ Err (bad (length bytes.now) BadCause.Short)) ↔ (length bytes.now < 8) }
    ensures schema { (result ≡ Err (bad 4 BadCause.Schema)) ↔ ((8 ≤ length bytes.now) × (u16_at 4 bytes.now ≢ SCHEMA)) }
{
    if bytes.len() < HEADER_BYTES {
        return Err(Bad {
            place: bytes.len() as u64,
            cause: BadCause::Short,
        });
    }
    let schema = get_u16(bytes, 4);
    if schema != SCHEMA {
        return Err(Bad {
            place: 4,
            cause: BadCause::Schema,
        });
    }
    Ok(Header {
        block: get_u16(bytes, 0),
        template: get_u16(bytes, 2),
        schema,
        version: get_u16(bytes, 6),
    })
}

/// The least multiple of 32 that is at least `len`, in bytes.
pub fn aligned(len: u64) -> u64
    requires { len < 2 ^ 62 }
    ensures value { result ≡ aligned_to len }
    ensures multiple { result % 32 ≡ 0 }
    ensures least { (len ≤ result) × (result < len + 32) }
{
    len.div_ceil(32) * 32
}
