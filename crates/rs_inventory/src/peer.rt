//! What the records of one peer say.

ghost use Rattle.std.specs.Prelude.{◌≡◌, ◌+◌, [], OnOk};
ghost use Rattle.rs_inventory.specs.Peer.{TellsMore, announced_by, counted, identifier_in, is_faulty, is_message};
ghost use Rattle.rs_inventory.specs.Peer.{is_same, is_state_change, peer_content, with_counts, with_course};
ghost use Rattle.rs_inventory.specs.Peer.{with_identifier, with_session, withdrawn_by};

use crate::course::Course;
use crate::finding::News;
use crate::sessions::{SessionTimes, Sessions};
use std::alloc::{AllocError, Global};
use std::marker::Model;

/// What the records of one peer say. Each count stops at 2 to the 64th less 1.
#[derive(Debug, Drop)]
pub struct PeerRecords {
    messages: u64,
    state_changes: u64,
    faulty: u64,
    announced: u64,
    withdrawn: u64,
    // The BGP Identifiers of the OPENs, without those that are as the one before.
    identifiers: Vec<u32>,
    sessions: Sessions,
    course: Course,
}

impl Model for PeerRecords {
    ghost use Rattle.rs_inventory.specs.Peer.{PeerContent};

    ghost Value = { PeerContent };

    ghost view = { λ p. record {
      messages = p.messages;
      state_changes = p.state_changes;
      faulty = p.faulty;
      announced = p.announced;
      withdrawn = p.withdrawn;
      identifiers = p.identifiers.items;
      sessions = p.sessions;
      course = p.course;
    } };
}

impl PeerRecords {
    /// No record yet.
    #[tactic(auto, unfolding(crate::specs::Peer::peer_content))]
    pub(crate) fn none(alloc: Global) -> PeerRecords
        ensures { result ≡ peer_content [] }
    {
        PeerRecords {
            messages: 0,
            state_changes: 0,
            faulty: 0,
            announced: 0,
            withdrawn: 0,
            identifiers: Vec::new(alloc),
            sessions: Sessions::none(alloc),
            course: Course::none(),
        }
    }

    /// Takes what the next record says, recorded at a time.
    pub(crate) fn take(&mut self, time: u32, news: News) -> Result<(), AllocError>
        ensures { OnOk result (TellsMore self.old time news self.new) }
    {
        self.count(news);
        self.take_identifier(news)?;
        self.take_session(time, news)?;
        self.take_course(time, news);
        Ok(())
    }

    // Counts the record.
    fn count(&mut self, news: News)
        ensures { self.new ≡ with_counts news self.old }
    {
        self.messages = self.messages.saturating_add(u64::from(news.is_message()));
        self.state_changes = self
            .state_changes
            .saturating_add(u64::from(news.is_state_change()));
        self.faulty = self.faulty.saturating_add(u64::from(news.is_faulty()));
        self.announced = self.announced.saturating_add(news.announced());
        self.withdrawn = self.withdrawn.saturating_add(news.withdrawn());
    }

    // Takes the BGP Identifier of an OPEN.
    fn take_identifier(&mut self, news: News) -> Result<(), AllocError>
        ensures { OnOk result (self.new ≡ with_identifier news self.old) }
    {
        let Some(identifier) = news.identifier() else {
            return Ok(());
        };
        if !is_same(self.identifiers.last().copied(), identifier) {
            self.identifiers.push(identifier)?;
        }
        Ok(())
    }

    // Takes the beginning or the end of a session, or what shows that one is up.
    fn take_session(&mut self, time: u32, news: News) -> Result<(), AllocError>
        ensures { OnOk result (self.new ≡ with_session time news self.old) }
    {
        match news {
            News::Up => self.sessions.comes_up(time),
            News::Down => self.sessions.goes_down(time),
            News::Notification => self.sessions.goes_down(time),
            News::Update { .. } => self.sessions.shows_up(time),
            _ => Ok(()),
        }
    }

    // Takes how the records go on.
    fn take_course(&mut self, time: u32, news: News)
        ensures { self.new ≡ with_course time news self.old }
    {
        self.course = self.course.with(time, news);
    }

    /// How many of its records a route server reads: messages and changes of state.
    pub fn records(&self) -> u64
        ensures { result ≡ counted (self.now.messages + self.now.state_changes) }
    {
        self.messages.saturating_add(self.state_changes)
    }

    /// How many messages it sent, those with a fault too.
    pub fn messages(&self) -> u64
        ensures { result ≡ self.now.messages }
    {
        self.messages
    }

    /// How many changes of state of its sessions are recorded.
    pub fn state_changes(&self) -> u64
        ensures { result ≡ self.now.state_changes }
    {
        self.state_changes
    }

    /// How many of its messages have a fault (RFC 4271, section 6).
    pub fn faulty(&self) -> u64
        ensures { result ≡ self.now.faulty }
    {
        self.faulty
    }

    /// How many prefixes its UPDATEs without fault announce, repeated ones too.
    pub fn announced(&self) -> u64
        ensures { result ≡ self.now.announced }
    {
        self.announced
    }

    /// How many prefixes its UPDATEs without fault withdraw, repeated ones too.
    pub fn withdrawn(&self) -> u64
        ensures { result ≡ self.now.withdrawn }
    {
        self.withdrawn
    }

    /// The BGP Identifiers of its OPENs, in order, without those that are as the one before; numbers in host order.
    pub fn identifiers(&self) -> &[u32]
        ensures { result.now ≡ self.now.identifiers }
    {
        &self.identifiers
    }

    /// When its sessions came up and went down, in order, those too which UPDATEs alone show.
    pub fn sessions(&self) -> &[SessionTimes]
        ensures { result.now ≡ self.now.sessions }
    {
        self.sessions.times()
    }

    /// How its records begin and go on; those of OPENs with two-octet AS numbers count too.
    pub fn course(&self) -> Course
        ensures { result ≡ self.now.course }
    {
        self.course
    }
}

// Whether a number is the one before.
fn is_same(before: Option<u32>, number: u32) -> bool
    ensures { result ≡ is_same before number }
{
    match before {
        Some(before) => before == number,
        None => false,
    }
}

impl News {
    // Whether it is a message of a session with four-octet AS numbers.
    fn is_message(self) -> bool
        ensures { result ≡ is_message self }
    {
        match self {
            News::Update { .. } => true,
            News::Open(_) => true,
            News::Notification => true,
            News::Message => true,
            News::Faulty => true,
            News::Up => false,
            News::Down => false,
            News::State => false,
            News::TwoOctetOpen(_) => false,
        }
    }

    // Whether it is a change of state.
    fn is_state_change(self) -> bool
        ensures { result ≡ is_state_change self }
    {
        matches!(self, News::Up | News::Down | News::State)
    }

    // Whether it is a message with a fault.
    fn is_faulty(self) -> bool
        ensures { result ≡ is_faulty self }
    {
        matches!(self, News::Faulty)
    }

    // How many prefixes it announces.
    fn announced(self) -> u64
        ensures { result ≡ announced_by self }
    {
        match self {
            News::Update { announced, .. } => announced,
            _ => 0,
        }
    }

    // How many prefixes it withdraws.
    fn withdrawn(self) -> u64
        ensures { result ≡ withdrawn_by self }
    {
        match self {
            News::Update { withdrawn, .. } => withdrawn,
            _ => 0,
        }
    }

    // The BGP Identifier in a record.
    fn identifier(self) -> Option<u32>
        ensures { result ≡ identifier_in self }
    {
        match self {
            News::Open(identifier) => Some(identifier),
            News::TwoOctetOpen(identifier) => Some(identifier),
            _ => None,
        }
    }
}
