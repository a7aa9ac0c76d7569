//! Which modules fit where.
use game_types::{Activity, Allowed, Bonus, EffectKind, FitFault, Module, fits};
use plan_base::{GoodId, Items, NoMemory, RecipeId};
use std::alloc::Global;
use std::test::Fail;

fn allowed(all: bool) -> Allowed {
    Allowed {
        speed: all,
        productivity: all,
        consumption: all,
        pollution: all,
    }
}

fn faster() -> Bonus {
    Bonus {
        speed: 20,
        productivity: 0,
        consumption: 50,
        pollution: 0,
    }
}

fn module_of(limitation: Vec<RecipeId>, blacklist: Vec<RecipeId>) -> Module {
    Module {
        bonus: faster(),
        limitation: Items::from_vec(limitation),
        blacklist: Items::from_vec(blacklist),
    }
}

// A module for all recipes but the one with the number 2.
fn free(alloc: Global) -> Result<Module, NoMemory> {
    let blacklist = vec![in alloc; RecipeId(2)]?;
    Ok(module_of(Vec::new(alloc), blacklist))
}

// A module for the recipe with the number 4 alone.
fn limited(alloc: Global) -> Result<Module, NoMemory> {
    let limitation = vec![in alloc; RecipeId(4)]?;
    Ok(module_of(limitation, Vec::new(alloc)))
}

fn does_fit(module: &Module, activity: Activity) -> bool {
    fits(module, &allowed(true), &activity) == Ok(())
}

fn is_limited(module: &Module, activity: Activity) -> bool {
    fits(module, &allowed(true), &activity) == Err(FitFault::Limited)
}

// Nothing is allowed, and the first effect that the module has is told.
fn is_refused(module: &Module, activity: Activity) -> bool {
    fits(module, &allowed(false), &activity) == Err(FitFault::Kind(EffectKind::Speed))
}

fn is_free_so(module: &Module) -> bool {
    is_refused(module, Activity::Craft(RecipeId(2)))
        && is_limited(module, Activity::Craft(RecipeId(2)))
        && does_fit(module, Activity::Craft(RecipeId(1)))
        && does_fit(module, Activity::Pump(GoodId(2)))
}

fn is_limited_so(module: &Module) -> bool {
    is_limited(module, Activity::Craft(RecipeId(1)))
        && does_fit(module, Activity::Craft(RecipeId(4)))
}

#[test]
fn modules_fit(rt: HostRuntime) -> Result<(), Fail> {
    let free = free(rt.alloc())?;
    assert!(rt; is_free_so(&free));
    Ok(())
}

#[test]
fn modules_are_limited(rt: HostRuntime) -> Result<(), Fail> {
    let limited = limited(rt.alloc())?;
    assert!(rt; is_limited_so(&limited));
    Ok(())
}
