//! How the records of a peer begin and go on: whether routes may have been announced before them, and whether a
//! session began again without a recorded loss. It follows RFC 4271, sections 4 and 8, and RFC 6396, section 4.4.4.
//!
//! Our choices: a session begins with an OPEN or with a change to Established. An UPDATE shows that it is up. A
//! change from Established or a NOTIFICATION is its loss.

ghost use Rattle.std.specs.Prelude.{◌≡◌, []};
ghost use Rattle.rs_inventory.specs.Course.{begins, course_of, course_with, first_read_with, is_loss, is_read};
ghost use Rattle.rs_inventory.specs.Course.{is_start, shows_up};

use crate::finding::News;

/// How the records of a peer begin and go on. Times are in seconds since 1970.
#[derive(Clone, Copy, Debug, PartialEq, Eq)]
pub struct Course {
    /// The Timestamp of the first record; none if there is none.
    pub first: Option<u32>,
    /// The Timestamp of the last record; none if there is none.
    pub last: Option<u32>,
    /// The Timestamp of the first record that a route server reads; none if there is none. It reads no OPEN with two-octet
    /// AS numbers.
    pub first_read: Option<u32>,
    /// The Timestamp of the last record that a route server reads; none if there is none.
    pub last_read: Option<u32>,
    /// Whether the first record is neither an OPEN nor a change of state: the recording begins in mid-session, and
    /// routes that were announced before are missing.
    pub inside: bool,
    /// Whether the session is up behind the last record.
    pub up: bool,
    /// When the session began while it was up, the last time since its last loss: routes from before stay.
    pub again: Option<u32>,
    /// Whether the last record is a loss.
    pub lost: bool,
}

impl Course {
    /// That of no record.
    #[tactic(auto, unfolding(crate::specs::Course::course_of))]
    pub(crate) fn none() -> Course
        ensures { result ≡ course_of [] }
    {
        Course {
            first: None,
            last: None,
            first_read: None,
            last_read: None,
            inside: false,
            up: false,
            again: None,
            lost: false,
        }
    }

    /// The course of a peer after one more record, of this time.
    pub(crate) fn with(self, time: u32, news: News) -> Course
        ensures { result ≡ course_with time news self }
    {
        let lost = news.is_loss();
        Course {
            first: Some(self.first.unwrap_or(time)),
            last: Some(time),
            first_read: first_read_with(time, news, self.first_read),
            last_read: if news.is_read() {
                Some(time)
            } else {
                self.last_read
            },
            inside: match self.first {
                Some(_) => self.inside,
                None => !news.is_start(),
            },
            up: !lost && (news.shows_up() || self.up),
            again: if lost {
                None
            } else if news.begins() && self.up {
                Some(time)
            } else {
                self.again
            },
            lost,
        }
    }
}

// The first time of a record that is read, after one more record.
fn first_read_with(time: u32, news: News, first: Option<u32>) -> Option<u32>
    ensures { result ≡ first_read_with time news first }
{
    match first {
        Some(first) => Some(first),
        None if news.is_read() => Some(time),
        None => None,
    }
}

impl News {
    /// Whether a session begins with it: with an OPEN or a change to Established (RFC 4271, section 8.2.2).
    pub fn begins(self) -> bool
        ensures { result ≡ begins self }
    {
        matches!(self, News::Open(_) | News::TwoOctetOpen(_) | News::Up)
    }

    /// Whether it shows that the session is up: an UPDATE or a change to Established (RFC 4271, section 8.2.2).
    pub fn shows_up(self) -> bool
        ensures { result ≡ shows_up self }
    {
        matches!(self, News::Update { .. } | News::Up)
    }

    /// Whether the session is lost with it: a NOTIFICATION or a change from Established (RFC 4271, section 6.4).
    pub fn is_loss(self) -> bool
        ensures { result ≡ is_loss self }
    {
        matches!(self, News::Notification | News::Down)
    }

    // Whether a route server reads it: all but an OPEN with two-octet AS numbers.
    fn is_read(self) -> bool
        ensures { result ≡ is_read self }
    {
        !matches!(self, News::TwoOctetOpen(_))
    }

    // Whether a recording of a session can begin with it.
    fn is_start(self) -> bool
        ensures { result ≡ is_start self }
    {
        matches!(
            self,
            News::Open(_) | News::TwoOctetOpen(_) | News::Up | News::Down | News::State
        )
    }
}
