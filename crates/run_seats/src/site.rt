// What all members of a run share.
ghost use Rattle.std.specs.Prelude.{◌≡◌, ◌≤◌, ◌<◌, length};

use service_api::Kind;
use std::alloc::Global;

/// Which member one is, 0 to 4, of so many, 1 to 5.
#[derive(Clone, Copy, Debug)]
pub struct MemberId {
    pub member: u8,
    pub members: u8,
    ghost within: { (member < members) × (members ≤ 5) },
}

/// What all members of a run share.
#[derive(Drop)]
pub struct Site {
    pub alloc: Global,
    /// 1 to 5.
    pub members: u8,
    /// 1 to 3, by service.
    kinds: Vec<Kind>,
    ghost members_range: { (1 ≤ members) × (members ≤ 5) },
    ghost kinds_range: { (1 ≤ length kinds.items) × (length kinds.items ≤ 3) },
}

impl Site {
    /// The site of 1 to 5 members with 1 to 3 services.
    pub fn new(alloc: Global, members: u64, kinds: Vec<Kind>) -> Option<Site> {
        if members == 0 || members > 5 || kinds.is_empty() || kinds.len() > 3 {
            return None;
        }
        Some(Site {
            alloc,
            members: members as u8,
            kinds,
        })
    }

    /// The services of a member, by number.
    pub fn kinds(&self) -> &[Kind]
        ensures { (1 ≤ length result.now) × (length result.now ≤ 3) }
    {
        self.kinds.as_slice()
    }

    /// How many services a member has.
    pub fn services(&self) -> u8
        ensures { (1 ≤ result) × (result ≤ 3) }
    {
        self.kinds.len() as u8
    }
}
