ghost use Rattle.std.specs.Prelude.{◌≡◌, ◌↔◌, ◌≤◌, ◌<◌, ◌==◌, ◌++◌, ◌∷◌, [], length, false, true, Err, Some, None, IfSome, IfOk, OnOk, OnErr, slice_get};
ghost use Rattle.mk_spelling.specs.Words.{is_name};
ghost use Rattle.mk_spelling.specs.Fields.{place};
ghost use Rattle.mk_names.specs.NameLists.{with_name, IsBeyond};
ghost use Rattle.mk_names.specs.Shown.{text_of};

use indexmap::IndexSet;
use mk_text::is_name;
use mk_txn::NoMemory;
use std::alloc::Global;
use std::marker::Model;

/// Why a name got no number.
#[derive(Clone, Copy, PartialEq, Eq)]
pub enum NameError {
    /// The text is no name: a letter `a` to `z` and at most 15 letters, digits and `_`.
    BadName,
    /// The name is new, and there are as many as there may be.
    Full,
    NoMemory,
}

impl From<NoMemory> for NameError {
    ghost use Rattle.mk_names.specs.declared.names.NameError.TheVariants as errors;

    ghost from_gives = { λ _ e. e ≡ errors.NoMemory };

    fn from(_: NoMemory) -> NameError {
        NameError::NoMemory
    }
}

/// Distinct names, numbered from 0 in the order in which they came.
#[derive(Drop)]
pub struct Names {
    alloc: Global,
    limit: u32,
    set: IndexSet<String>,
}

impl Model for Names {
    ghost use Rattle.std.specs.Prelude.{map};
    ghost use Rattle.std.specs.String.{string_bytes};
    ghost use Rattle.mk_names.specs.NameLists.{NameList, IsNameList};

    ghost Value = { NameList };

    ghost view = { λ a. record { names = map string_bytes a.set.keys; limit = a.limit } };

    ghost invariant = { λ a. IsNameList (record { names = map string_bytes a.set.keys; limit = a.limit }) };
}

impl Names {
    /// No names yet, of at most 256.
    pub fn new(alloc: Global) -> Names
        ensures { result ≡ record { names = []; limit = 256 } }
    {
        Names::with_limit(alloc, 256)
    }

    /// No names yet, of at most `limit`.
    pub fn with_limit(alloc: Global, limit: u32) -> Names
        ensures { result ≡ record { names = []; limit = limit } }
    {
        Names {
            alloc,
            limit,
            set: IndexSet::new(alloc),
        }
    }

    /// How many names there are.
    pub fn len(&self) -> u32
        ensures count { result ≡ length self.now.names }
        ensures within { result ≤ self.now.limit }
    {
        self.set.len() as u32
    }

    /// Whether there is no name.
    pub fn is_empty(&self) -> bool
        ensures { result ≡ (length self.now.names == 0) }
    {
        self.set.is_empty()
    }

    /// The number of the name, where it has one.
    pub fn find(&self, name: &str) -> Option<u32>
        ensures number { result ≡ place name.now self.now.names }
    {
        let place = self.set.get_index_of(name)?;
        Some(place as u32)
    }

    /// The name of the number, where there is one.
    pub fn name(&self, number: u32) -> Option<&str>
        ensures name { text_of result ≡ slice_get self.now.names number }
        // It is a name, and the number is its first place.
        ensures well_named { IfSome result (λ text. is_name text.now ≡ true) }
        ensures first { IfSome result (λ text. place text.now self.now.names ≡ Some number) }
    {
        let name = self.set.get_index(number as usize)?;
        Some(name.as_str())
    }

    /// The number of the name, a new one last.
    pub fn intern(&mut self, name: &str) -> Result<u32, NameError>
        ensures number { IfOk result (λ n. place name.now self.new.names ≡ Some n) }
        ensures names { OnOk result (self.new ≡ record self.old { names = with_name self.old.names name.now }) }
        ensures bad_name { (result ≡ Err NameError.BadName) ↔ (is_name name.now ≡ false) }
        ensures full { (result ≡ Err NameError.Full) ↔ IsBeyond self.old name.now }
        ensures err { OnErr result (self.new ≡ self.old) }
    {
        if !is_name(name.as_bytes()) {
            return Err(NameError::BadName);
        }
        if let Some(number) = self.find(name) {
            return Ok(number);
        }
        let number = self.len();
        if number == self.limit {
            return Err(NameError::Full);
        }
        self.put(name)?;
        Ok(number)
    }

    /// Puts a new name last.
    fn put(&mut self, name: &str) -> Result<(), NoMemory>
        requires well_named { is_name name.now ≡ true }
        requires fresh { place name.now self.old.names ≡ None }
        requires room { length self.old.names < self.old.limit }
        ensures ok { OnOk result (self.new ≡ record self.old { names = self.old.names ++ name.now ∷ [] }) }
        ensures err { OnErr result (self.new ≡ self.old) }
    {
        let name = String::from_str(self.alloc, name)?;
        self.set.insert_full(name)?;
        Ok(())
    }

    /// The same names under the same numbers and limit.
    pub fn copy(&self) -> Result<Names, NoMemory>
        ensures { IfOk result (λ names. names ≡ self.now) }
    {
        let mut names = Names::with_limit(self.alloc, self.limit);
        for number in 0..self.len() {
            let name = self.name(number).unwrap();
            names.put(name)?;
        }
        Ok(names)
    }
}
