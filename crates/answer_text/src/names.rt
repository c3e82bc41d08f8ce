//! Names of points, looked up.
ghost use Rattle.std.specs.Prelude.{◌≡◌, ◌<◌, ◌^◌, length, position, IfOk};
ghost use Rattle.std.specs.Str.{bytes_eq};
ghost use Rattle.answer_text.specs.Hits.{name_of};

use indexmap::IndexMap;
use scenario_values::Text;
use std::alloc::{AllocError, Global};
use std::marker::Model;

/// The names of points, each with the first place that has it. Looking one up takes one step of hashing. Contracts see the list of the names.
#[derive(Drop)]
pub struct PointNames<'a> {
    names: &'a [Text],
    places: IndexMap<&'a str, u32>,
}

impl<'a> Model for PointNames<'a> {
    ghost use Rattle.std.specs.Prelude.{List, ℕ};
    ghost use Rattle.answer_text.specs.inside.Names.{IsIndexOf};

    ghost Value = { List (List ℕ) };

    ghost view = { λ p. p.names.now };

    ghost invariant = { λ p. IsIndexOf p.places.entries p.names.now };
}

impl<'a> PointNames<'a> {
    /// Takes these names. An error means that memory was refused.
    pub fn new(alloc: Global, names: &'a [Text]) -> Result<PointNames<'a>, AllocError>
        requires { length names.now < 2 ^ 32 }
        ensures { IfOk result (λ p. p ≡ names.now) }
    {
        let mut places = IndexMap::new(alloc);
        // The first of equal names is put last, and stays.
        let mut number = names.len();
        while number > 0 {
            number -= 1;
            places.insert(names[number].as_str(), number as u32)?;
        }
        Ok(PointNames { names, places })
    }

    /// The name at a place, or the empty text where there is none.
    pub fn name_of(&self, place: u32) -> &str
        ensures { result.now ≡ name_of self.now place }
    {
        match self.names.get(place as usize) {
            Some(name) => name.as_str(),
            None => "",
        }
    }

    /// The first place of a name.
    pub fn place_of(&self, name: &str) -> Option<u32>
        ensures { result ≡ position (bytes_eq name.now) self.now }
    {
        match self.places.get(name) {
            Some(place) => Some(*place),
            None => None,
        }
    }
}
