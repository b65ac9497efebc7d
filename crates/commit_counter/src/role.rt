// What a member was as its phase began.
/// What a member was as its phase began.
#[derive(Clone, Copy, Debug, PartialEq, Eq)]
pub enum Role {
    /// It led no term, or its term's first entry wasn't in its log yet. It sends no egress.
    Follower,
    /// It led this term, and was ready to. It sends the egress of this term's entries alone.
    Leader { term: i64 },
}
