//! What holds of the setup of a configuration: each law is the contract of a function that does nothing.

ghost use Rattle.rs_setup.specs.Laws.{BeginsOnce, HasFileForEachPeer, SetsUpOnce};

/// A configuration sets up no more than one plan, no more than one file for each peer, and no more than one list of files
/// that are read before it.
pub fn a_configuration_sets_up_one_exchange()
    ensures exchange { SetsUpOnce }
    ensures begins { BeginsOnce }
{}

/// A configuration sets up as many recorded files as peers.
pub fn a_configuration_has_a_file_for_each_peer()
    ensures { HasFileForEachPeer }
{}
