// One open session.
ghost use Rattle.std.specs.Prelude.{◌≡◌, ◌≤◌, ◌^◌, true, IfOk};
ghost use Rattle.std.specs.Int.{int_max};
ghost use Rattle.session_manager.specs.Sessions.{is_idle};

use cl_base::limits::SESSION_TIMEOUT_MS;
use cl_base::{Bytes, NoMemory};

/// An open session.
#[derive(Debug, Drop)]
pub struct Session {
    pub id: i64,
    /// The number by which the client knows its connect.
    pub corr: i64,
    /// The greatest stamp (ms) of its open and its messages.
    pub stamp: i64,
    /// The stream on which the client listens.
    pub stream: i32,
    /// A service wants it closed.
    pub closing: bool,
    /// The channel on which the client listens.
    pub channel: Bytes,
}

impl Session {
    /// A second session that is equal to this one.
    pub fn copy(&self) -> Result<Session, NoMemory>
        ensures { IfOk result (λ s. s ≡ self.now) }
    {
        let channel = self.channel.copy()?;
        Ok(Session {
            id: self.id,
            corr: self.corr,
            stamp: self.stamp,
            stream: self.stream,
            closing: self.closing,
            channel,
        })
    }

    /// It has had no open or message for 10,000 ms, and `since` (ms) is as long ago.
    pub fn is_idle(&self, now: u64, since: u64) -> bool
        requires { now ≤ 2 ^ 60 }
        ensures { result ≡ is_idle now since self.now }
    {
        now >= SESSION_TIMEOUT_MS
            && since <= now - SESSION_TIMEOUT_MS
            && self.stamp <= now as i64 - SESSION_TIMEOUT_MS as i64
    }

    /// Its stamp is that of its latest message.
    pub fn raise(&mut self, stamp: i64)
        ensures { self.new ≡ record self.old { stamp = int_max self.old.stamp stamp } }
    {
        if stamp > self.stamp {
            self.stamp = stamp;
        }
    }

    pub fn mark(&mut self)
        ensures { self.new ≡ record self.old { closing = true } }
    {
        self.closing = true;
    }
}
