//! What decisions need of one route by itself, in one octet.

ghost use Rattle.std.specs.Prelude.{◌≡◌};
ghost use Rattle.rs_choice.specs.Candidacy.{is_candidate, is_open_candidate, is_plain_candidate, is_taken_in};
ghost use Rattle.rs_choice.specs.Candidacy.{origin_of_candidacy, CandidacyOf};

use rs_types::Origin;

/// Whether a route may be a candidate at all, whether every client but its sender may get it, and its ORIGIN. It
/// also says whether the route is plain: its neighbour AS is its sender's AS, and its MED is 0 or missing. One octet
/// has room for all this; a flag for each would take four.
#[derive(Clone, Copy, Debug, PartialEq, Eq)]
pub enum Candidacy {
    /// Import policy doesn't take it in (RFC 4271, section 9.1.1): it is a candidate of no client.
    Filtered,
    /// It isn't eligible (RFC 4271, sections 6.3 and 9.1.2): it is a candidate of no client.
    Ineligible,
    /// It isn't plain, and export policy (RFC 7947, section 2.3) refuses it to some client; its ORIGIN is IGP.
    RestrictedIgp,
    /// Like `RestrictedIgp`, but its ORIGIN is EGP.
    RestrictedEgp,
    /// Like `RestrictedIgp`, but its ORIGIN is INCOMPLETE.
    RestrictedIncomplete,
    /// It isn't plain, and export policy permits it to every client but its sender; its ORIGIN is IGP.
    OpenIgp,
    /// Like `OpenIgp`, but its ORIGIN is EGP.
    OpenEgp,
    /// Like `OpenIgp`, but its ORIGIN is INCOMPLETE.
    OpenIncomplete,
    /// It is plain, and export policy refuses it to some client; its ORIGIN is IGP.
    PlainRestrictedIgp,
    /// Like `PlainRestrictedIgp`, but its ORIGIN is EGP.
    PlainRestrictedEgp,
    /// Like `PlainRestrictedIgp`, but its ORIGIN is INCOMPLETE.
    PlainRestrictedIncomplete,
    /// It is plain, and export policy permits it to every client but its sender; its ORIGIN is IGP.
    PlainOpenIgp,
    /// Like `PlainOpenIgp`, but its ORIGIN is EGP.
    PlainOpenEgp,
    /// Like `PlainOpenIgp`, but its ORIGIN is INCOMPLETE.
    PlainOpenIncomplete,
}

impl Candidacy {
    // The candidacy of a route of this origin that may be a candidate, which may be unrestricted (permitted to every client but
    // its sender) and plain.
    pub(crate) fn of(unrestricted: bool, origin: Origin, plain: bool) -> Candidacy
        ensures { CandidacyOf unrestricted origin plain result }
    {
        match (unrestricted, origin, plain) {
            (false, Origin::Igp, true) => Candidacy::PlainRestrictedIgp,
            (false, Origin::Egp, true) => Candidacy::PlainRestrictedEgp,
            (false, Origin::Incomplete, true) => Candidacy::PlainRestrictedIncomplete,
            (true, Origin::Igp, true) => Candidacy::PlainOpenIgp,
            (true, Origin::Egp, true) => Candidacy::PlainOpenEgp,
            (true, Origin::Incomplete, true) => Candidacy::PlainOpenIncomplete,
            (false, Origin::Igp, false) => Candidacy::RestrictedIgp,
            (false, Origin::Egp, false) => Candidacy::RestrictedEgp,
            (false, Origin::Incomplete, false) => Candidacy::RestrictedIncomplete,
            (true, Origin::Igp, false) => Candidacy::OpenIgp,
            (true, Origin::Egp, false) => Candidacy::OpenEgp,
            (true, Origin::Incomplete, false) => Candidacy::OpenIncomplete,
        }
    }

    /// Whether import policy takes the route in.
    pub fn is_taken_in(self) -> bool
        ensures { result ≡ is_taken_in self }
    {
        !matches!(self, Candidacy::Filtered)
    }

    /// Whether the route may be a candidate: import policy takes it in, and it is eligible.
    pub fn is_candidate(self) -> bool
        ensures { result ≡ is_candidate self }
    {
        !matches!(self, Candidacy::Filtered | Candidacy::Ineligible)
    }

    /// Whether it may be a candidate, and export policy permits it to every client but its sender.
    pub fn is_open(self) -> bool
        ensures { result ≡ is_open_candidate self }
    {
        matches!(
            self,
            Candidacy::PlainOpenIgp
                | Candidacy::PlainOpenEgp
                | Candidacy::PlainOpenIncomplete
                | Candidacy::OpenIgp
                | Candidacy::OpenEgp
                | Candidacy::OpenIncomplete
        )
    }

    /// Whether it may be a candidate and is plain.
    pub fn is_plain(self) -> bool
        ensures { result ≡ is_plain_candidate self }
    {
        matches!(
            self,
            Candidacy::PlainRestrictedIgp
                | Candidacy::PlainRestrictedEgp
                | Candidacy::PlainRestrictedIncomplete
                | Candidacy::PlainOpenIgp
                | Candidacy::PlainOpenEgp
                | Candidacy::PlainOpenIncomplete
        )
    }

    // The ORIGIN of a route that may be a candidate.
    pub(crate) fn origin(self) -> Origin
        ensures { result ≡ origin_of_candidacy self }
    {
        match self {
            Candidacy::PlainRestrictedIgp
            | Candidacy::PlainOpenIgp
            | Candidacy::RestrictedIgp
            | Candidacy::OpenIgp => Origin::Igp,
            Candidacy::PlainRestrictedEgp
            | Candidacy::PlainOpenEgp
            | Candidacy::RestrictedEgp
            | Candidacy::OpenEgp => Origin::Egp,
            Candidacy::Filtered
            | Candidacy::Ineligible
            | Candidacy::PlainRestrictedIncomplete
            | Candidacy::PlainOpenIncomplete
            | Candidacy::RestrictedIncomplete
            | Candidacy::OpenIncomplete => Origin::Incomplete,
        }
    }
}
