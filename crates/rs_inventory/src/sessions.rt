//! When the sessions of a peer came up and went down. Recorded changes of state (RFC 6396, section 4.4.1),
//! NOTIFICATIONs (RFC 4271, section 4.5) and UPDATEs show it.
//!
//! Our choices: a session comes up with a change to Established. Behind a loss an UPDATE shows that another one is up, as
//! of its time. If the next event is a loss, it ends the session. A loss before any other event ends a session that came
//! up at a time that isn't recorded. A loss right after a loss says nothing.

ghost use Rattle.std.specs.Prelude.{◌≡◌, [], ◌∷◌, ◌++◌, OnOk, None, false};
ghost use Rattle.rs_inventory.specs.Sessions.{came_up, ended_at, is_ended, with_end, with_shown};

use std::alloc::{AllocError, Global};
use std::marker::Model;

/// When a session came up and went down, in seconds since 1970.
#[derive(Clone, Copy, Debug, PartialEq, Eq)]
pub struct SessionTimes {
    /// When it came up: none if that isn't recorded.
    pub up: Option<u32>,
    /// When it went down: none if that isn't recorded.
    pub down: Option<u32>,
    /// Whether no change to Established says that it came up. Behind a loss its first UPDATE, at the time `up`, shows that
    /// it is up.
    pub shown: bool,
}

impl SessionTimes {
    // The session, ended if it has no end.
    fn ended_at(self, time: u32) -> SessionTimes
        ensures { result ≡ ended_at time self }
    {
        match self.down {
            None => SessionTimes {
                up: self.up,
                down: Some(time),
                shown: self.shown,
            },
            Some(_) => self,
        }
    }
}

/// The sessions of a peer, in order.
#[derive(Debug, Drop)]
pub(crate) struct Sessions {
    times: Vec<SessionTimes>,
}

impl Model for Sessions {
    ghost use Rattle.std.specs.Prelude.{List};
    ghost use Rattle.rs_inventory.specs.declared.sessions.SessionTimes.{SessionTimes};

    ghost Value = { List SessionTimes };

    ghost view = { λ s. s.times.items };
}

impl Sessions {
    /// No session yet.
    pub(crate) fn none(alloc: Global) -> Sessions
        ensures { result ≡ [] }
    {
        Sessions {
            times: Vec::new(alloc),
        }
    }

    /// A session came up.
    pub(crate) fn comes_up(&mut self, time: u32) -> Result<(), AllocError>
        ensures { OnOk result (self.new ≡ self.old ++ came_up false time None ∷ []) }
    {
        self.times.push(SessionTimes {
            up: Some(time),
            down: None,
            shown: false,
        })?;
        Ok(())
    }

    /// An UPDATE came, which shows that a session is up.
    pub(crate) fn shows_up(&mut self, time: u32) -> Result<(), AllocError>
        ensures { OnOk result (self.new ≡ with_shown time self.old) }
    {
        if is_ended(self.times.last().copied()) {
            self.times.push(SessionTimes {
                up: Some(time),
                down: None,
                shown: true,
            })?;
        }
        Ok(())
    }

    /// The session went down.
    pub(crate) fn goes_down(&mut self, time: u32) -> Result<(), AllocError>
        ensures { OnOk result (self.new ≡ with_end time self.old) }
    {
        let Some(last) = self.times.pop() else {
            self.times.push(SessionTimes {
                up: None,
                down: Some(time),
                shown: false,
            })?;
            return Ok(());
        };
        self.times.push(last.ended_at(time))?;
        Ok(())
    }

    /// When each came up and went down.
    pub(crate) fn times(&self) -> &[SessionTimes]
        ensures { result.now ≡ self.now }
    {
        &self.times
    }
}

// Whether there is a session and it went down.
fn is_ended(last: Option<SessionTimes>) -> bool
    ensures { result ≡ is_ended last }
{
    match last {
        Some(last) => last.down.is_some(),
        None => false,
    }
}
