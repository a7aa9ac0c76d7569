//! Whether the modules of beacons fit.
ghost use Rattle.std.specs.Prelude.{◌≡◌, All};
ghost use Rattle.game_types.specs.Beacons.{beacon_fault, beacon_module_fits, beacon_modules_fit, group_modules_fit, group_fits, checked_beacons};
ghost use Rattle.game_types.specs.Steps.{first_fault};
ghost use Rattle.game_types.specs.Sound.{IsSound, IsSoundSetup, IsSoundGroup, IsModule};

use game_types::{
    Activity, Allowed, BeaconFault, BeaconGroup, Game, ModuleFault, Setup, check_slots,
    first_refused, fits, named,
};
use plan_base::GoodId;

// The same fault, of a beacon.
fn beacon_fault(fault: ModuleFault) -> BeaconFault
    ensures { result ≡ beacon_fault fault }
{
    match fault {
        ModuleFault::TooMany(good) => BeaconFault::TooMany(good),
        ModuleFault::Kind(good, kind) => BeaconFault::Kind(good, kind),
        ModuleFault::Limited(good) => BeaconFault::Limited(good),
    }
}

#[tactic(auto, unfolding(game_types::specs::Beacons::beacon_module_fits, game_types::specs::Modules::module_fits))]
// Whether a module fits: the beacon must allow its effects, then the machine, and it must be one for the recipe.
fn beacon_module_fits(
    game: &Game,
    beacon: &Allowed,
    machine: &Allowed,
    activity: &Activity,
    good: GoodId,
) -> Result<(), ModuleFault>
    requires sound { IsSound game.now }
    requires there { IsModule game.now good }
    ensures { result ≡ beacon_module_fits game.now beacon.now machine.now activity.now good }
{
    let installed = game.module(good);
    if let Some(kind) = first_refused(&installed.bonus, beacon) {
        return Err(ModuleFault::Kind(good, kind));
    }
    named(good, fits(installed, machine, activity))
}

// Whether all modules fit; else what is wrong with the first that doesn't.
fn beacon_modules_fit(
    game: &Game,
    beacon: &Allowed,
    machine: &Allowed,
    activity: &Activity,
    modules: &[(GoodId, u32)],
) -> Result<(), ModuleFault>
    requires sound { IsSound game.now }
    requires modules { All (λ m. IsModule game.now m.0) modules.now }
    ensures { result ≡ beacon_modules_fit game.now beacon.now machine.now activity.now modules.now }
{
    for (good, _) in modules {
        beacon_module_fits(game, beacon, machine, activity, *good)?;
    }
    Ok(())
}

#[tactic(auto, unfolding(game_types::specs::Beacons::group_modules_fit))]
// Whether the modules of a group's beacons fit: the slots, then each module in turn.
fn group_modules_fit(game: &Game, setup: &Setup, group: &BeaconGroup) -> Result<(), ModuleFault>
    requires sound { IsSound game.now }
    requires setup { IsSoundSetup game.now setup.now }
    requires group { IsSoundGroup game.now group.now }
    ensures { result ≡ group_modules_fit game.now setup.now group.now }
{
    let beacon = game.machine(group.beacon);
    let machine = game.machine(setup.machine);
    let modules = group.modules.as_slice();
    check_slots(modules, beacon.slots)?;
    beacon_modules_fit(
        game,
        &beacon.allowed,
        &machine.allowed,
        &setup.activity,
        modules,
    )
}

#[tactic(auto, unfolding(game_types::specs::Beacons::group_fits))]
// Whether a group of beacons fits: the share, then its modules.
fn group_fits(game: &Game, setup: &Setup, group: &BeaconGroup) -> Result<(), BeaconFault>
    requires sound { IsSound game.now }
    requires setup { IsSoundSetup game.now setup.now }
    requires group { IsSoundGroup game.now group.now }
    ensures { result ≡ group_fits game.now setup.now group.now }
{
    if group.share == 0 {
        return Err(BeaconFault::ShareZero(group.beacon));
    }
    match group_modules_fit(game, setup, group) {
        Ok(()) => Ok(()),
        Err(fault) => Err(beacon_fault(fault)),
    }
}

// Whether all groups of beacons fit; else what is wrong with the first that doesn't.
fn groups_fit(game: &Game, setup: &Setup, groups: &[BeaconGroup]) -> Result<(), BeaconFault>
    requires sound { IsSound game.now }
    requires setup { IsSoundSetup game.now setup.now }
    requires groups { All (IsSoundGroup game.now) groups.now }
    ensures { result ≡ first_fault (group_fits game.now setup.now) groups.now }
{
    for group in groups {
        group_fits(game, setup, group)?;
    }
    Ok(())
}

#[tactic(auto, unfolding(game_types::specs::Beacons::checked_beacons))]
/// Whether the beacons of a set-up fit.
///
/// # Errors
///
/// The first fault, group by group: `ShareZero` (B1) where no machine shares the group's beacons; then `TooMany` (U1) where
/// they have more modules than slots, with the module at which their number first passes the slots; then module by module
/// `Kind` (U2) with the first kind of effect that it has and the beacon, or else the machine, doesn't take, and `Limited`
/// (U3) where it may not be used for the recipe. `Wide` never.
pub fn check_beacons(game: &Game, setup: &Setup) -> Result<(), BeaconFault>
    requires sound { IsSound game.now }
    requires setup { IsSoundSetup game.now setup.now }
    ensures { result ≡ checked_beacons game.now setup.now }
{
    groups_fit(game, setup, setup.beacons.as_slice())
}
