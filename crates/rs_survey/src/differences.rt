//! Where a client's choice differs between two tables.

ghost use Rattle.std.specs.Prelude.{◌≡◌, ◌≤◌, IfOk, IsTrue, IsFalse, None, vec_capacity};
ghost use Rattle.rs_survey.specs.Differences.{chosen, name_of};
ghost use Rattle.std.specs.Option.{option_map};

use crate::choices::Choices;
use crate::side_by_side::SideBySide;
use rs_choice::Exchange;
use rs_table::Tables;
use rs_update::{Attributes, the_attributes_of_a_route_read_back, write_attributes};
use std::alloc::{AllocError, Global};
use std::marker::Model;

// How many octets the attributes of two routes take at most.
const ROOM: usize = 8_146;

/// The prefixes on which two clients' choices differ: an iterator over them, in ascending order, each once, with both
/// routes. Choices are the same if both get no route, or routes of senders of one name with the same attributes.
/// Since when a client gets a route is not compared. It holds no more than two routes at a time.
#[derive(Drop)]
pub struct Differences<'a> {
    rows: SideBySide<'a>,
    // Room in which the attributes of two routes are compared.
    octets: Vec<u8>,
}

impl<'a> Model for Differences<'a> {
    ghost use Rattle.std.specs.Prelude.{◌≤◌, vec_capacity};
    ghost use Rattle.rs_survey.specs.Differences.{ToCompare};
    ghost use Rattle.rs_survey.specs.SideBySide.{to_compare_code};

    ghost Value = { ToCompare };

    ghost coded = { to_compare_code };

    ghost view = { λ fields. fields.rows };

    ghost invariant = { λ fields. 8146 ≤ vec_capacity fields.octets };
}

impl<'a> Differences<'a> {
    /// The prefixes on which the choices of two clients differ: of the peer of number `client_before` in some
    /// tables, and of the peer of number `client_after` in others. None stands for a client that is absent from the
    /// tables. It gets no route, as does the client of a number that no peer has.
    ///
    /// Fails if memory is refused; what it gives takes no more memory.
    pub fn new(
        alloc: Global,
        before: &'a Tables,
        client_before: Option<usize>,
        after: &'a Tables,
        client_after: Option<usize>,
    ) -> Result<Differences<'a>, AllocError>
        ensures before { IfOk result (λ all. all.before ≡ record { tables = before.now; client = client_before }) }
        ensures after { IfOk result (λ all. all.after ≡ record { tables = after.now; client = client_after }) }
        ensures last { IfOk result (λ all. all.last ≡ None) }
    {
        let octets = Vec::with_capacity(alloc, ROOM)?;
        Ok(Differences {
            rows: SideBySide::new(before, client_before, after, client_after),
            octets,
        })
    }
}

impl<'a> Iterator for Differences<'a> {
    ghost use Rattle.std.specs.Iterator.{at_most};
    ghost use Rattle.rs_survey.specs.Differences.{GivesDifference};

    type Item = Choices<'a>;

    ghost next_gives = { GivesDifference };

    ghost remaining = { λ all. at_most all.left };

    fn next(&mut self) -> Option<Choices<'a>> {
        let (before, after) = self.rows.tables();
        while let Some(one) = self.rows.next() {
            if !is_same(&mut self.octets, before.plan(), after.plan(), &one) {
                return Some(one);
            }
        }
        None
    }
}

// Whether two choices are equal: no route, or routes of senders of one name with the same attributes.
fn is_same(octets: &mut Vec<u8>, before: &Exchange, after: &Exchange, one: &Choices) -> bool
    requires { 8146 ≤ vec_capacity octets.old }
    ensures same { IsTrue result → chosen before.now one.now.before ≡ chosen after.now one.now.after }
    ensures differ { IsFalse result → chosen before.now one.now.before ≡ chosen after.now one.now.after → ⊥ }
    ensures room { 8146 ≤ vec_capacity octets.new }
{
    match (one.before, one.after) {
        (Some(old), Some(new)) => {
            has_one_name(before, old.peer, after, new.peer)
                && has_same_attributes(octets, old.attributes, new.attributes)
        }
        (None, None) => true,
        _ => false,
    }
}

// Whether two peers have one name.
fn has_one_name(before: &Exchange, old: usize, after: &Exchange, new: usize) -> bool
    ensures same { IsTrue result → name_of before.now old ≡ name_of after.now new }
    ensures differ { IsFalse result → name_of before.now old ≡ name_of after.now new → ⊥ }
{
    match (name(before, old), name(after, new)) {
        (Some(one), Some(other)) => one == other,
        (None, None) => true,
        _ => false,
    }
}

// The name of the peer of a number.
fn name(plan: &Exchange, peer: usize) -> Option<&str>
    ensures { option_map (λ name. name.now) result ≡ name_of plan.now peer }
{
    if peer < plan.count() {
        Some(plan.peer(peer).name.as_str())
    } else {
        None
    }
}

// Whether two routes have the same attributes: they are written, and what is written is compared.
fn has_same_attributes(octets: &mut Vec<u8>, one: &Attributes, other: &Attributes) -> bool
    requires { 8146 ≤ vec_capacity octets.old }
    ensures same { IsTrue result → one.now ≡ other.now }
    ensures differ { IsFalse result → one.now ≡ other.now → ⊥ }
    ensures room { 8146 ≤ vec_capacity octets.new }
{
    // What is written of attributes identifies them.
    the_attributes_of_a_route_read_back(one);
    the_attributes_of_a_route_read_back(other);
    octets.clear();
    let len = one.written_len();
    if len != other.written_len() {
        return false;
    }
    let (Ok(()), Ok(())) = (
        write_attributes(one, octets),
        write_attributes(other, octets),
    ) else {
        unreachable!();
    };
    let (first, second) = octets.split_at(len);
    first == second
}
