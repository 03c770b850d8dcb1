//! The names of the answers and reasons for which a client does not get a route: words of the command line, and keys in
//! answers.

/// The name of the answer that a route is not eligible.
pub const INELIGIBLE: &str = "ineligible";

/// The name of the reason that AS_PATH has the server's AS.
pub const SERVER_AS_IN_PATH: &str = "server_as_in_path";

/// The name of the reason that NEXT_HOP is the server's address.
pub const SERVER_ADDRESS_AS_NEXT_HOP: &str = "server_address_as_next_hop";

/// The name of the reason that NEXT_HOP is off the subnet of the exchange.
pub const NEXT_HOP_OFF_EXCHANGE: &str = "next_hop_off_exchange";

/// The name of the answer that import policy does not take a route in.
pub const FILTERED: &str = "filtered";

/// The name of the reason that the prefix is shorter or longer than import policy takes in.
pub const PREFIX_LENGTH: &str = "prefix_length";

/// The name of the reason that import policy refuses the prefix.
pub const REFUSED_PREFIX: &str = "refused_prefix";

/// The name of the reason that AS_PATH is longer than import policy takes in.
pub const PATH_LENGTH_LIMIT: &str = "path_length_limit";

/// The name of the reason that AS_PATH has an AS number that import policy refuses.
pub const REFUSED_AS: &str = "refused_as";

/// The name of the reason that AS_PATH does not begin with the sender's AS.
pub const FIRST_AS: &str = "first_as";

/// The name of the reason that the prefix is not in the sender's prefix list.
pub const PREFIX_LIST: &str = "prefix_list";

/// The name of the reason that the origin AS is not in the sender's list.
pub const ORIGIN_AS: &str = "origin_as";

/// The name of the reason that the route is invalid by RPKI.
pub const RPKI_INVALID: &str = "rpki_invalid";

/// The name of the answer that export policy refuses a route.
pub const REFUSED: &str = "refused";

/// The name of the reason that the client refuses the sender by its name.
pub const REFUSED_BY_NAME: &str = "name";

/// The name of the reason that a community refuses the route, be it a large one or not.
pub const REFUSED_BY_COMMUNITY: &str = "community";

/// The name by which routes are asked for that a large community refuses.
pub const REFUSED_BY_LARGE_COMMUNITY: &str = "large_community";

/// The name of the answer that the decision process chose another route.
pub const LOST: &str = "lost";

/// The name of the step that compares preferences.
pub const PREFERENCE: &str = "preference";

/// The name of the step that compares the lengths of AS_PATH.
pub const PATH_LENGTH: &str = "path_length";

/// The name of the step that compares origins.
pub const ORIGIN: &str = "origin";

/// The name of the step that compares MULTI_EXIT_DISC.
pub const MED: &str = "med";

/// The name of the step that compares BGP Identifiers.
pub const IDENTIFIER: &str = "identifier";

/// The name of the step that compares the addresses of senders.
pub const ADDRESS: &str = "address";
