//! Copies of records that hold lists.
ghost use Rattle.std.specs.Prelude.{◌≡◌, IfOk};

use crate::{BeaconGroup, Recipe, Setup, Tech};
use plan_base::{Items, NoMemory};
use std::alloc::Global;

// An equal list of its own.
fn copied<T: Copy + Drop>(alloc: Global, items: &Items<T>) -> Result<Items<T>, NoMemory>
    ensures { IfOk result (λ copy. copy ≡ items.now) }
{
    let mut copy = Vec::new(alloc);
    for item in items.as_slice() {
        copy.push(*item)?;
    }
    Ok(Items::from_vec(copy))
}

impl Recipe {
    /// An equal recipe of its own.
    ///
    /// # Errors
    ///
    /// `NoMemory` where memory could not be had.
    pub fn copy(&self, alloc: Global) -> Result<Recipe, NoMemory>
        ensures { IfOk result (λ copy. copy ≡ self.now) }
    {
        let ingredients = copied(alloc, &self.ingredients)?;
        let products = copied(alloc, &self.products)?;
        Ok(Recipe {
            category: self.category,
            time: self.time,
            enabled: self.enabled,
            emissions: self.emissions,
            ingredients,
            products,
            launch: self.launch,
        })
    }
}

impl Tech {
    /// An equal technology of its own.
    ///
    /// # Errors
    ///
    /// `NoMemory` where memory could not be had.
    pub fn copy(&self, alloc: Global) -> Result<Tech, NoMemory>
        ensures { IfOk result (λ copy. copy ≡ self.now) }
    {
        let prerequisites = copied(alloc, &self.prerequisites)?;
        let unlocks = copied(alloc, &self.unlocks)?;
        let ingredients = copied(alloc, &self.ingredients)?;
        Ok(Tech {
            enabled: self.enabled,
            prerequisites,
            unlocks,
            ingredients,
            count: self.count,
            time: self.time,
        })
    }
}

impl BeaconGroup {
    /// An equal group of its own.
    ///
    /// # Errors
    ///
    /// `NoMemory` where memory could not be had.
    pub fn copy(&self, alloc: Global) -> Result<BeaconGroup, NoMemory>
        ensures { IfOk result (λ copy. copy ≡ self.now) }
    {
        let modules = copied(alloc, &self.modules)?;
        Ok(BeaconGroup {
            beacon: self.beacon,
            count: self.count,
            share: self.share,
            modules,
        })
    }
}

fn copied_groups(alloc: Global, groups: &[BeaconGroup]) -> Result<Items<BeaconGroup>, NoMemory>
    ensures { IfOk result (λ copy. copy ≡ groups.now) }
{
    let mut copy = Vec::new(alloc);
    for group in groups {
        let group = group.copy(alloc)?;
        copy.push(group)?;
    }
    Ok(Items::from_vec(copy))
}

impl Setup {
    /// An equal set-up of its own.
    ///
    /// # Errors
    ///
    /// `NoMemory` where memory could not be had.
    pub fn copy(&self, alloc: Global) -> Result<Setup, NoMemory>
        ensures { IfOk result (λ copy. copy ≡ self.now) }
    {
        let modules = copied(alloc, &self.modules)?;
        let beacons = copied_groups(alloc, self.beacons.as_slice())?;
        let at = copied(alloc, &self.at)?;
        Ok(Setup {
            activity: self.activity,
            machine: self.machine,
            fuel: self.fuel,
            modules,
            beacons,
            at,
        })
    }
}
