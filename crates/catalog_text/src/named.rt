//! Things beside their names.
use name_table::{NameFault, Names};
use plan_base::NoMemory;
use std::alloc::Global;

/// Things, each beside its name.
#[derive(Drop)]
pub struct Named<T> {
    names: Names,
    things: Vec<T>,
}

impl<T: Drop> Named<T> {
    /// No things.
    pub fn new(alloc: Global) -> Named<T> {
        Named {
            names: Names::make(alloc),
            things: Vec::new(alloc),
        }
    }

    /// Puts a thing, unless one of the name is there, or as many as there may be.
    ///
    /// # Errors
    ///
    /// `NoMemory` where memory could not be had.
    pub fn put(&mut self, name: &str, thing: T) -> Result<(), NoMemory> {
        match self.names.intern(name) {
            Ok(place) => {
                if place as usize == self.things.len() {
                    self.things.push(thing)?;
                }
                Ok(())
            }
            Err(NameFault::Full) => Ok(()),
            Err(NameFault::NoMemory) => Err(NoMemory),
        }
    }

    /// The thing of a name.
    pub fn find(&self, name: &str) -> Option<&T> {
        match self.names.find(name) {
            Some(place) => self.things.as_slice().get(place as usize),
            None => None,
        }
    }
}
