//! What holds of the definitions that the contracts cite: each law is the contract of a function that does nothing.

ghost use Rattle.std.specs.Prelude.{◌≡◌, None, Some};
ghost use Rattle.rs_types.specs.Gathered.{attributes_of};
ghost use Rattle.rs_update.specs.Laws.{FieldIsRead, SectionIsRead, SectionIsFaultless, SectionFaultIsFirst, PathIsRead};
ghost use Rattle.rs_update.specs.Laws.{FaultIsFirst, NoFaultIsMessage, AttributesAreForRoutes, WrittenIsRead};
ghost use Rattle.rs_update.specs.Laws.{Rfc4271IsAsBefore, StandardsAgree, StrongestIsFound};
ghost use Rattle.rs_types.specs.Section.{items_of, section_fault};
ghost use Rattle.rs_types.specs.Spelling.{written};

use rs_types::Attributes;

/// A field of withdrawn routes or of NLRI lists at most one list of prefixes, and reading the field finds this list
/// if there is one (RFC 4271, section 4.3).
pub fn a_field_is_one_list_of_prefixes()
    ensures { FieldIsRead }
{}

/// There is exactly one way to split a section of path attributes into attributes and a rest that does not begin
/// with an attribute. Reading the section finds it (RFC 4271, section 4.3).
pub fn a_section_is_one_list_of_attributes()
    ensures { SectionIsRead }
{}

/// The fault of a section is that of its first attribute at fault, or else that octets are left over (RFC 4271,
/// section 6.3). An attribute is at fault if its type stood earlier, or if one of its own tests finds a fault.
pub fn a_section_is_at_fault_by_its_first_attribute_at_fault()
    ensures none { SectionIsFaultless }
    ensures fault { SectionFaultIsFirst }
{}

/// There is exactly one way to split the value of an AS_PATH into segments and a rest that does not begin with a
/// segment. Reading the value finds it (RFC 4271, section 4.3; RFC 6793).
pub fn a_path_is_one_list_of_segments()
    ensures { PathIsRead }
{}

/// The fault of a message is the one that its first failing test finds, in the order of the tests. If no test finds
/// a fault, the message is given (RFC 4271, section 6).
pub fn a_message_is_at_fault_by_its_first_fault()
    ensures fault { FaultIsFirst }
    ensures none { NoFaultIsMessage }
{}

/// If faults are handled by RFC 4271, a message says what that standard says.
pub fn by_rfc_4271_a_message_says_what_it_says()
    ensures { Rfc4271IsAsBefore }
{}

/// If RFC 4271 finds no fault, RFC 7606 reads the same message.
pub fn without_a_fault_both_standards_agree()
    ensures { StandardsAgree }
{}

/// By RFC 7606 the strongest handling that any attribute of a section asks for is applied (sections 2 and 3). It does
/// not matter where the attribute stands. If several ask for equally strong handlings, the first counts.
pub fn the_strongest_that_is_found_counts()
    ensures { StrongestIsFound }
{}

/// An UPDATE has attributes exactly if it announces prefixes.
pub fn attributes_are_for_announced_routes()
    ensures { AttributesAreForRoutes }
{}

/// What is written of the attributes that a section gives is a section without fault. It gives the same attributes,
/// Partial bits included. It is never longer than the section received (RFC 4271, section 4.3). Reading and writing
/// it again gives the same octets.
pub fn what_is_written_reads_as_the_same_attributes()
    ensures { WrittenIsRead }
{}

/// So the written form of every route's attributes is a section without fault, and it is read as these attributes.
pub fn the_attributes_of_a_route_read_back(attributes: &Attributes)
    ensures faultless { section_fault (written attributes.now) ≡ None }
    ensures same { attributes_of (items_of (written attributes.now)) ≡ Some attributes.now }
{
    let _spelling = attributes.spelling();
}
