//! The answers and reasons for which `missing` lists routes.

use crate::reason_names::{
    ADDRESS, FILTERED, FIRST_AS, IDENTIFIER, INELIGIBLE, LOST, MED, NEXT_HOP_OFF_EXCHANGE, ORIGIN,
    ORIGIN_AS, PATH_LENGTH, PATH_LENGTH_LIMIT, PREFERENCE, PREFIX_LENGTH, PREFIX_LIST, REFUSED,
    REFUSED_AS, REFUSED_BY_COMMUNITY, REFUSED_BY_LARGE_COMMUNITY, REFUSED_BY_NAME, REFUSED_PREFIX,
    RPKI_INVALID, SERVER_ADDRESS_AS_NEXT_HOP, SERVER_AS_IN_PATH,
};

/// An answer or a reason for which routes are listed.
#[derive(Clone, Copy, Debug, PartialEq, Eq, Drop)]
pub enum AskedReason {
    /// They are not eligible, whatever condition they fail.
    Ineligible,
    /// They have the server's AS in AS_PATH.
    ServerAsInPath,
    /// They have the server's address as NEXT_HOP.
    ServerAddressAsNextHop,
    /// They have a NEXT_HOP off the subnet of the exchange.
    NextHopOffExchange,
    /// They are eligible, and import policy does not take them in, by whatever filter.
    Filtered,
    /// Their prefix is shorter or longer than import policy takes in.
    PrefixLength,
    /// Import policy refuses their prefix.
    RefusedPrefix,
    /// Their AS_PATH is longer than import policy takes in.
    PathLengthLimit,
    /// Their AS_PATH has an AS number that import policy refuses.
    RefusedAs,
    /// Their AS_PATH does not begin with the sender's AS.
    FirstAs,
    /// Their prefix is not in the sender's prefix list.
    PrefixList,
    /// Their origin AS is not in the sender's list.
    OriginAs,
    /// They are invalid by RPKI.
    RpkiInvalid,
    /// Export policy refuses them, by whatever rule.
    Refused,
    /// The client refuses their sender by its name.
    RefusedByName,
    /// A community refuses them, be it a large one or not.
    RefusedByCommunity,
    /// A large community refuses them.
    RefusedByLargeCommunity,
    /// The decision process removes them, at whatever step.
    Lost,
    /// The step that compares preferences removes them.
    Preference,
    /// The step that compares the lengths of AS_PATH removes them.
    PathLength,
    /// The step that compares origins removes them.
    Origin,
    /// The step that compares MULTI_EXIT_DISC removes them.
    Med,
    /// The step that compares BGP Identifiers removes them.
    Identifier,
    /// The step that compares the addresses of senders removes them.
    Address,
}

// The names, in the order of help.
pub(crate) const REASONS: [&str; 24] = [
    INELIGIBLE,
    SERVER_AS_IN_PATH,
    SERVER_ADDRESS_AS_NEXT_HOP,
    NEXT_HOP_OFF_EXCHANGE,
    FILTERED,
    PREFIX_LENGTH,
    REFUSED_PREFIX,
    PATH_LENGTH_LIMIT,
    REFUSED_AS,
    FIRST_AS,
    PREFIX_LIST,
    ORIGIN_AS,
    RPKI_INVALID,
    REFUSED,
    REFUSED_BY_NAME,
    REFUSED_BY_COMMUNITY,
    REFUSED_BY_LARGE_COMMUNITY,
    LOST,
    PREFERENCE,
    PATH_LENGTH,
    ORIGIN,
    MED,
    IDENTIFIER,
    ADDRESS,
];

impl AskedReason {
    // The answer or the reason of a name.
    pub(crate) fn of(name: &str) -> Option<AskedReason> {
        match name {
            INELIGIBLE => Some(AskedReason::Ineligible),
            SERVER_AS_IN_PATH => Some(AskedReason::ServerAsInPath),
            SERVER_ADDRESS_AS_NEXT_HOP => Some(AskedReason::ServerAddressAsNextHop),
            NEXT_HOP_OFF_EXCHANGE => Some(AskedReason::NextHopOffExchange),
            FILTERED => Some(AskedReason::Filtered),
            PREFIX_LENGTH => Some(AskedReason::PrefixLength),
            REFUSED_PREFIX => Some(AskedReason::RefusedPrefix),
            PATH_LENGTH_LIMIT => Some(AskedReason::PathLengthLimit),
            REFUSED_AS => Some(AskedReason::RefusedAs),
            FIRST_AS => Some(AskedReason::FirstAs),
            PREFIX_LIST => Some(AskedReason::PrefixList),
            ORIGIN_AS => Some(AskedReason::OriginAs),
            RPKI_INVALID => Some(AskedReason::RpkiInvalid),
            REFUSED => Some(AskedReason::Refused),
            REFUSED_BY_NAME => Some(AskedReason::RefusedByName),
            REFUSED_BY_COMMUNITY => Some(AskedReason::RefusedByCommunity),
            REFUSED_BY_LARGE_COMMUNITY => Some(AskedReason::RefusedByLargeCommunity),
            LOST => Some(AskedReason::Lost),
            PREFERENCE => Some(AskedReason::Preference),
            PATH_LENGTH => Some(AskedReason::PathLength),
            ORIGIN => Some(AskedReason::Origin),
            MED => Some(AskedReason::Med),
            IDENTIFIER => Some(AskedReason::Identifier),
            ADDRESS => Some(AskedReason::Address),
            _ => None,
        }
    }
}
