// The orders of a scenario.
use cl_base::{Bytes, Choice};

/// A service that is shipped.
#[derive(Clone, Copy, Debug, PartialEq, Eq)]
pub enum Named {
    /// Gives each message back.
    Echo,
    /// Adds up amounts.
    Ledger,
    /// Arms timers.
    Ticker,
}

/// One order: a line that isn't skipped, with its values and its number (from 1). Members are 0 to 4 and below the
/// number of members, clients 0 to 63.
#[derive(Debug, Drop)]
pub enum Order {
    /// `members N`: the cluster has this many members, 1 to 5.
    Members {
        line: u64,
        members: u64,
    },
    /// `service NAME`: each member runs this service.
    Service {
        line: u64,
        name: Named,
    },
    /// `rounds N`: so many rounds, 1 to 100,000.
    Rounds {
        line: u64,
        rounds: u64,
    },
    /// `quiet N`: so many rounds without phases, 1 to 100,000.
    Quiet {
        line: u64,
        rounds: u64,
    },
    /// `connect C M`: the client sends the member a connect.
    Connect {
        line: u64,
        client: u64,
        member: u64,
    },
    /// `send C M TEXT`: the client sends the member a message of at least one byte, each 0x20 to 0x7e.
    Send {
        line: u64,
        client: u64,
        member: u64,
        text: Bytes,
    },
    /// `sendhex C M HEX`: the client sends the member a message of any bytes.
    SendHex {
        line: u64,
        client: u64,
        member: u64,
        payload: Bytes,
    },
    /// `close C M`: the client sends the member a close of its session.
    Close {
        line: u64,
        client: u64,
        member: u64,
    },
    /// `keepalive C M`: the client sends the member a keep-alive.
    KeepAlive {
        line: u64,
        client: u64,
        member: u64,
    },
    /// `bytes C M HEX`: the client sends the member these bytes as they are.
    Raw {
        line: u64,
        client: u64,
        member: u64,
        bytes: Bytes,
    },
    /// `action M`: a snapshot action at the member.
    Action {
        line: u64,
        member: u64,
    },
    /// `stop M`: the member stops, at rest.
    Stop {
        line: u64,
        member: u64,
    },
    /// `start M`: the member starts.
    Start {
        line: u64,
        member: u64,
    },
    /// `invalidate M`: the member's latest valid snapshot goes.
    Invalidate {
        line: u64,
        member: u64,
    },
    /// `fuse M K CHOICE`: the member's disk lets so many changing calls pass, 0 to 1,000, and the crash that follows
    /// leaves what the choice says.
    Fuse {
        line: u64,
        member: u64,
        calls: u64,
        choice: Choice,
    },
    /// `cut A B`: packets from one member to another are dropped. The two differ.
    Cut {
        line: u64,
        from: u64,
        to: u64,
    },
    /// `heal A B`: packets from one member to another are delivered again. The two differ.
    Heal {
        line: u64,
        from: u64,
        to: u64,
    },
    /// `lose A B`: packets in flight from one member to another vanish. The two differ.
    Lose {
        line: u64,
        from: u64,
        to: u64,
    },
    /// `replay A B K`: the K-th latest packet, 1 to 256, from one member to another is sent again. The two differ.
    Replay {
        line: u64,
        from: u64,
        to: u64,
        latest: u64,
    },
    /// `free on`: phases go on over the orders that follow.
    FreeOn {
        line: u64,
    },
    /// `free off`: phases end with their rounds again.
    FreeOff {
        line: u64,
    },
    /// `join C`: from now on the client connects, keeps its session alive and reads its stream by itself. No order
    /// that sends for it stands before or behind.
    Join {
        line: u64,
        client: u64,
    },
    /// `offer C TEXT`: a joined client offers a message of at least one byte, each 0x20 to 0x7e.
    Offer {
        line: u64,
        client: u64,
        text: Bytes,
    },
    /// `backup M`: the backup asks this member from now on.
    Backup {
        line: u64,
        member: u64,
    },
    /// `backup off`: the backup asks nobody.
    BackupOff {
        line: u64,
    },
    /// `backup lose`: the backup's packets in flight vanish.
    BackupLose {
        line: u64,
    },
}
