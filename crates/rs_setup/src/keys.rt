//! The keys of a configuration's tables: which there are, which must be there, and how a fault names them.

ghost use Rattle.std.specs.Prelude.{◌≡◌, IfOk, None, Some, [], map, option_map, string_bytes};
ghost use Rattle.std.specs.Option.{is_some};
ghost use Rattle.toml.specs.Data.{get_member};
ghost use Rattle.toml.specs.View.{table_view, view};
ghost use Rattle.rs_setup.specs.Values.{HasOnly, IsAddress, IsBoolean, IsSomeNumber, IsSomeSubnet, IsSomeText, IsText};
ghost use Rattle.rs_setup.specs.Values.{IsTexts, IsWholeNumber, MayHave, Needs};

use crate::setup::SetupFault;
use crate::values::{address, subnet, texts, whole_number};
use rs_update::Prefix;
use std::alloc::{AllocError, Global};
use toml::{Table, Value};

/// Where a table stands in a configuration.
#[derive(Clone, Copy)]
pub enum Place {
    /// It is the configuration.
    Top,
    /// It is the server's.
    Server,
    /// It is that of the peer of this number.
    Peer(usize),
    /// It is that of import policy.
    Import,
    /// It has the bounds of prefix lengths in import policy.
    PrefixLength,
}

impl Place {
    // A key with the way to it.
    fn path(self, alloc: Global, key: &str) -> Result<String, AllocError> {
        match self {
            Place::Top => String::from_str(alloc, key),
            Place::Server => format!(in alloc; "server.{key}"),
            Place::Peer(number) => format!(in alloc; "peer[{number}].{key}"),
            Place::Import => format!(in alloc; "import.{key}"),
            Place::PrefixLength => format!(in alloc; "import.prefix_length.{key}"),
        }
    }
}

/// A table of a configuration, and where it stands.
///
/// A key that must be there and isn't is refused as `Missing`. A key whose value is of another type or out of its
/// range is refused as `NotValid`. `Memory` is answered if there is no memory for the text of a fault or a copy of a
/// text.
#[derive(Drop)]
pub struct Section<'a> {
    place: Place,
    table: &'a Table,
}

impl<'a> Section<'a> {
    ghost use Rattle.rs_setup.specs.Section.{members_in};

    /// The table at a place.
    pub fn new(place: Place, table: &'a Table) -> Section<'a>
        ensures { members_in result ≡ table_view table.now }
    {
        Section { place, table }
    }

    /// Tests that the table has no key but the known ones. Else it is refused as `Unknown`, which names the
    /// least unknown key by its bytes.
    pub fn has_only(&self, alloc: Global, known: &[&str]) -> Result<(), SetupFault>
        ensures { IfOk result (λ _. HasOnly (map (λ key. key.now) known.now) (members_in self.now)) }
    {
        for (key, _value) in self.table.iter() {
            if !known.contains(&key.as_str()) {
                return Err(SetupFault::Unknown(self.place.path(alloc, key.as_str())?));
            }
        }
        Ok(())
    }

    /// The value at a key that may be there.
    pub fn get(&self, key: &str) -> Option<&'a Value>
        ensures { option_map (λ value. view value.now) result ≡ get_member key.now (members_in self.now) }
    {
        self.table.get(key)
    }

    /// Whether a key is there.
    pub fn has(&self, key: &str) -> bool
        ensures { result ≡ is_some (get_member key.now (members_in self.now)) }
    {
        self.get(key).is_some()
    }

    /// The value at a key that must be there.
    pub fn needs(&self, alloc: Global, key: &str) -> Result<&'a Value, SetupFault>
        ensures { IfOk result (λ value. get_member key.now (members_in self.now) ≡ Some (view value.now)) }
    {
        match self.table.get(key) {
            Some(value) => Ok(value),
            None => Err(SetupFault::Missing(self.place.path(alloc, key)?)),
        }
    }

    /// What was read at a key, or that its value isn't valid.
    pub fn valid<T: Drop>(&self, alloc: Global, key: &str, read: Option<T>) -> Result<T, SetupFault>
        ensures { IfOk result (λ found. read ≡ Some found) }
    {
        match read {
            Some(found) => Ok(found),
            None => Err(SetupFault::NotValid(self.place.path(alloc, key)?)),
        }
    }

    /// The whole number at a key that must be there.
    pub fn whole_number(&self, alloc: Global, key: &str) -> Result<u32, SetupFault>
        ensures { IfOk result (Needs (members_in self.now) key.now IsWholeNumber) }
    {
        self.valid(alloc, key, whole_number(self.needs(alloc, key)?))
    }

    /// The whole number at a key, or else the default.
    pub fn whole_number_or(&self, alloc: Global, key: &str, default: u32) -> Result<u32, SetupFault>
        ensures { IfOk result (MayHave (members_in self.now) key.now IsWholeNumber default) }
    {
        match self.get(key) {
            Some(value) => self.valid(alloc, key, whole_number(value)),
            None => Ok(default),
        }
    }

    /// The whole number at a key that may be there.
    pub fn some_whole_number(&self, alloc: Global, key: &str) -> Result<Option<u32>, SetupFault>
        ensures { IfOk result (MayHave (members_in self.now) key.now IsSomeNumber None) }
    {
        match self.get(key) {
            Some(value) => self.valid(alloc, key, whole_number(value)).map(Some),
            None => Ok(None),
        }
    }

    /// The Boolean at a key, or else the default.
    pub fn boolean_or(&self, alloc: Global, key: &str, default: bool) -> Result<bool, SetupFault>
        ensures { IfOk result (MayHave (members_in self.now) key.now IsBoolean default) }
    {
        match self.get(key) {
            Some(value) => self.valid(alloc, key, value.as_bool()),
            None => Ok(default),
        }
    }

    /// The address at a key that must be there, in host order.
    pub fn address(&self, alloc: Global, key: &str) -> Result<u32, SetupFault>
        ensures { IfOk result (Needs (members_in self.now) key.now IsAddress) }
    {
        self.valid(alloc, key, address(self.needs(alloc, key)?))
    }

    /// The address at a key, in host order, or else the default.
    pub fn address_or(&self, alloc: Global, key: &str, default: u32) -> Result<u32, SetupFault>
        ensures { IfOk result (MayHave (members_in self.now) key.now IsAddress default) }
    {
        match self.get(key) {
            Some(value) => self.valid(alloc, key, address(value)),
            None => Ok(default),
        }
    }

    /// The subnet at a key that may be there. Its host bits are cleared.
    pub fn subnet(&self, alloc: Global, key: &str) -> Result<Option<Prefix>, SetupFault>
        ensures { IfOk result (MayHave (members_in self.now) key.now IsSomeSubnet None) }
    {
        match self.get(key) {
            Some(value) => self.valid(alloc, key, subnet(value)).map(Some),
            None => Ok(None),
        }
    }

    /// The text at a key that must be there.
    pub fn text(&self, alloc: Global, key: &str) -> Result<String, SetupFault>
        ensures { IfOk result (λ text. Needs (members_in self.now) key.now IsText (string_bytes text)) }
    {
        let found = self.valid(alloc, key, self.needs(alloc, key)?.as_str())?;
        Ok(String::from_str(alloc, found)?)
    }

    /// The text at a key that may be there.
    pub fn some_text(&self, alloc: Global, key: &str) -> Result<Option<String>, SetupFault>
        ensures { IfOk result (λ text. MayHave (members_in self.now) key.now IsSomeText None
            (option_map string_bytes text)) }
    {
        match self.get(key) {
            Some(value) => {
                let found = self.valid(alloc, key, value.as_str())?;
                Ok(Some(String::from_str(alloc, found)?))
            }
            None => Ok(None),
        }
    }

    /// The texts of the list at a key, none if the key isn't there.
    pub fn texts(&self, alloc: Global, key: &str) -> Result<Vec<String>, SetupFault>
        ensures { IfOk result (λ texts. MayHave (members_in self.now) key.now IsTexts []
            (map string_bytes texts.items)) }
    {
        match self.get(key) {
            Some(value) => {
                let found = texts(alloc, value)?;
                self.valid(alloc, key, found)
            }
            None => Ok(Vec::new(alloc)),
        }
    }
}
