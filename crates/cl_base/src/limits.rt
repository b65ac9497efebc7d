// The limits of the product, each with its unit. Every layer cites these names.

/// The most members of a cluster.
pub const MEMBERS_LIMIT: u8 = 5;

/// The most services on a member.
pub const SERVICES_LIMIT: u8 = 3;

/// The bytes of one segment of the log.
pub const SEGMENT_BYTES: u64 = 65_536;

/// The most segments that a member keeps.
pub const SEGMENTS_LIMIT: u64 = 256;

/// The greatest place at which a log may end, in bytes: all its segments are full.
pub const LOG_LIMIT: u64 = 16_777_216;

/// The bytes of an event that one frame carries, but for the last frame of an entry.
pub const FRAME_PAYLOAD: u64 = 1_376;

/// The bytes of a frame's header. Frames begin at multiples of it.
pub const FRAME_HEADER: u64 = 32;

/// The most bytes of a client's message.
pub const PAYLOAD_LIMIT: usize = 16_384;

/// The most bytes of the name of a response channel.
pub const CHANNEL_LIMIT: usize = 1_024;

/// The most sessions that are open at once.
pub const SESSIONS_LIMIT: u64 = 1_024;

/// The most timers that are armed at once.
pub const TIMERS_LIMIT: u64 = 4_096;

/// The most snapshot actions in a log.
pub const ACTIONS_LIMIT: u64 = 256;

/// The most bytes of a leader's log past its commit.
pub const WINDOW_LIMIT: u64 = 32_768;

/// The most entries of a batch.
pub const BATCH_ENTRIES: u64 = 64;

/// The most bytes of events in a batch of more than one entry.
pub const BATCH_BYTES: u64 = 8_192;

/// The entries that the queue of an image holds.
pub const QUEUE_ENTRIES: usize = 256;

/// The packets that a link keeps to be sent again.
pub const REPLAY_LIMIT: u64 = 256;

/// How often a leader speaks to its followers, in ms.
pub const STATUS_INTERVAL_MS: u64 = 100;

/// After how long a silence a follower leaves its leader, in ms.
pub const HEARTBEAT_TIMEOUT_MS: u64 = 1_000;

/// How long a ballot lasts, in ms.
pub const ELECTION_TIMEOUT_MS: u64 = 500;

/// How long a canvass lasts at member 0, in ms.
pub const CANVASS_MS: u64 = 300;

/// How much longer a canvass lasts at each further member, in ms.
pub const CANVASS_STEP_MS: u64 = 100;

/// After how long a silence a session is closed, in ms.
pub const SESSION_TIMEOUT_MS: u64 = 10_000;

/// How long a round of a scenario lasts, in ms.
pub const ROUND_MS: u64 = 10;

/// The most bytes of a scenario.
pub const SCENARIO_LIMIT: usize = 1_048_576;

/// The most bytes of one line of a scenario.
pub const LINE_LIMIT: usize = 40_000;

/// The most rounds of a scenario.
pub const ROUNDS_LIMIT: u64 = 100_000;

/// The greatest term, place, stamp or count that a message may name: 2^62.
pub const NUMBER_LIMIT: u64 = 4_611_686_018_427_387_904;
