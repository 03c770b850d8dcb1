//! A source around another source. It shows a record of the loss before each record that shows one (RFC 4271, section
//! 8.2.2; RFC 6396, section 4.4.4).
//!
//! Our choices: all records of the other source are shown, in order. Records are shown as long as they take fewer than
//! 2^50 octets in all. From that limit on each answer is a failed read.

ghost use Rattle.std.specs.Prelude.{◌≡◌, false, List, Option, None, Some};
ghost use Rattle.std.specs.Option.{option_map};
ghost use Rattle.rs_mrt.specs.declared.fault.SourceFault.{SourceFault};
ghost use Rattle.rs_mrt.specs.Record.{MrtRecord, octets_of, record_of};
ghost use Rattle.rs_mrt.specs.declared.losses.Losses.TheVariants.{Inferred};
ghost use Rattle.rs_losses.specs.WithLosses.{ComesBy, ComesFirst, GoesOn, IsFullBy, answer_within, counted, met};
ghost use Rattle.rs_losses.specs.WithLosses.{octets_first, room_by, shown_by, something_comes, stopped_by, unbegun};

use crate::following::Followed;
use crate::losses::Sought;
use crate::puts_in::PutsIn;
use crate::spelling::{LOSS_OCTETS, loss_octets};
use rs_mrt::{HEADER_LEN, Losses, READ_LIMIT, Record, Source, SourceFault};
use std::marker::Model;

/// The records of another source, with the losses put in that they show. If only recorded losses are read it just
/// passes calls on. It takes no memory.
#[derive(Drop)]
pub struct WithLosses<S: Source> {
    source: S,
    losses: Losses,
    // The session behind the record that the source shows.
    followed: Followed,
    // The octets of the loss that is shown.
    octets: [u8; LOSS_OCTETS],
    // Whether the loss is shown that stands before the record of the source.
    put_in: bool,
    // How many octets are left, none once the limit was met.
    left: u64,
}

impl<S: Source> Model for WithLosses<S> {
    ghost use Rattle.rs_losses.specs.WithLosses.{HoldsLoss, Inferring};

    ghost Value = { Inferring S };

    ghost view = { λ w. record {
      source = w.source;
      losses = w.losses;
      followed = w.followed;
      put_in = w.put_in;
      left = w.left;
    } };

    ghost invariant = { λ w. HoldsLoss w.losses w.put_in (S.shows w.source) (S.stopped w.source)
        w.followed.who w.octets };
}

impl<S: Source> WithLosses<S> {
    /// Begins with the next record of the source. It takes no memory, and doesn't read yet.
    pub fn new(source: S, losses: Losses, who: Sought) -> WithLosses<S>
        ensures value { result ≡ unbegun source losses who }
        ensures comes { (records : List MrtRecord) (end : Option SourceFault)
            → ComesBy result.losses S.shows S.comes result records end
            → ComesFirst losses who (S.comes source) records end }
    {
        WithLosses {
            source,
            losses,
            followed: Followed { who, up: false },
            octets: [0; LOSS_OCTETS],
            put_in: false,
            left: READ_LIMIT,
        }
    }

    // Counts the octets of the record that is shown now. At the limit none is shown, now and from then on.
    fn count(&mut self, octets: usize) -> Result<bool, SourceFault>
        ensures counts { self.new ≡ counted self.old octets }
        ensures answer { result ≡ answer_within octets self.old.left }
    {
        let octets = octets as u64;
        if octets < self.left {
            self.left -= octets;
            return Ok(true);
        }
        self.left = 0;
        self.put_in = false;
        Err(SourceFault::Read)
    }

    // Shows the record behind the loss.
    fn show_behind(&mut self) -> Result<bool, SourceFault>
        ensures counts { self.new ≡ counted (record self.old { put_in = false }) (octets_of (S.shows self.old.source)) }
        ensures answer { result ≡ answer_within (octets_of (S.shows self.old.source)) self.old.left }
    {
        let octets = octets_of(self.source.shown());
        self.put_in = false;
        self.count(octets)
    }

    // Shows the record that the source shows, or the loss before it.
    fn meet(&mut self) -> Result<bool, SourceFault>
        requires inferred { self.old.losses ≡ Inferred }
        requires goes_on { S.stopped self.old.source ≡ None }
        ensures counts { (r : MrtRecord) → S.shows self.old.source ≡ Some r
            → self.new ≡ counted (met self.old r) (octets_first self.old.followed r) }
        ensures answer { (r : MrtRecord) → S.shows self.old.source ≡ Some r
            → result ≡ answer_within (octets_first self.old.followed r) self.old.left }
    {
        let Some(record) = self.source.shown() else {
            return Ok(false);
        };
        let (lost, followed) = self.followed.meet(&record);
        let octets = if lost {
            let who = self.followed.who;
            self.octets = loss_octets(who, &record);
            octets_of(Some(who.loss_record(&self.octets, &record)))
        } else {
            octets_of(Some(record))
        };
        self.followed = followed;
        self.put_in = lost;
        self.count(octets)
    }

    // Goes to the next record or loss.
    fn go_on(&mut self) -> Result<bool, SourceFault>
        requires { self.old.losses ≡ Inferred }
        ensures { GoesOn S.shows S.comes S.stopped S.failures S.full self.old self.new result }
    {
        if self.left == 0 {
            return Err(SourceFault::Read);
        }
        if self.put_in {
            return self.show_behind();
        }
        if !self.source.advance()? {
            return Ok(false);
        }
        self.meet()
    }
}

impl<S: Source> Source for WithLosses<S> {
    ghost shows = { λ w. shown_by w.losses S.shows w };

    ghost comes = { λ w. ComesBy w.losses S.shows S.comes w };

    ghost stopped = { λ w. stopped_by w.losses S.stopped w };

    ghost failures = { λ w. S.failures w.source };

    ghost full = { λ w. IsFullBy w.losses S.full w };

    ghost room = { λ w. room_by w.losses S.room w };

    ghost may_come = { λ w. something_comes S.shows S.comes S.may_come w };

    fn advance(&mut self) -> Result<bool, SourceFault> {
        match self.losses {
            Losses::Recorded => self.source.advance(),
            Losses::Inferred => self.go_on(),
        }
    }

    fn shown(&self) -> Option<Record<'_>> {
        match self.losses {
            Losses::Recorded => return self.source.shown(),
            Losses::Inferred => {}
        }
        if self.left == 0 {
            return None;
        }
        let record = self.source.shown()?;
        if self.put_in {
            return Some(self.followed.who.loss_record(&self.octets, &record));
        }
        Some(record)
    }
}

impl<S: Source> PutsIn for WithLosses<S> {
    ghost put_in = { λ w. w.put_in };

    fn is_put_in(&self) -> bool {
        self.put_in
    }
}

// How many octets the record takes that is shown, none if there is none.
fn octets_of(shown: Option<Record<'_>>) -> usize
    ensures { result ≡ octets_of (option_map record_of shown.entry) }
{
    match shown {
        Some(shown) => HEADER_LEN + shown.body.len(),
        None => 0,
    }
}
