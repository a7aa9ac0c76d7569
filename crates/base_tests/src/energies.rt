//! Energies beside values that were computed elsewhere.
use energy_units::{EnergyFault, read_energy, read_power};
use fractions::Ratio;
use plan_base::NoMemory;
use std::alloc::Global;
use std::test::Fail;

// Each line has a text, and what it is as an energy and as a power: written by `bench/fractions/numerals.py energy`.
const ENERGIES: &str = "\
0.2KJ 200 12000\n\
4MW E2 4000000\n\
75kW E2 75000\n\
1250J 1250 75000\n\
4 E2 E2\n\
kJ E1 E1\n\
J E1 E1\n\
W E1 E1\n\
4MJ 4000000 240000000\n\
07kJ E2 E2\n\
1.kJ E2 E2\n\
1e3J E2 E2\n\
-1J E1 E1\n\
0J 0 0\n\
0W E2 0\n\
1kkJ E2 E2\n\
1mJ E2 E2\n\
1kJ/s E2 E2\n\
999999999999999YJ E3 E3\n\
1000000YJ E3 E3\n\
999999YJ 999999000000000000000000000000 59999940000000000000000000000000\n\
1e0W E2 E2\n\
123.456MW E2 123456000\n\
0.0000000000000004YW E2 0\n\
999999999999999999J E3 E3\n\
0.333333333333333333MJ 333333333333333/1000000000 999999999999999/50000000\n\
10.5kj E2 E2\n\
10.5KW E2 10500\n\
1.5.5kJ E2 E2\n\
16.666666666666666kJ 166666666666667/10000000000 500000000000001/500000000\n\
796487718.80730215736ZJ 796487718807302000000000000000 47789263128438120000000000000000\n\
241914107032511321.642621KW E2 241914107032511000000\n\
17333J 17333 1039980\n\
2782609.45383KJ 278260945383/100 834782836149/5\n\
379240410608.62241549909TJ 379240410608622000000000 22754424636517320000000000\n\
5609503270.2772040560ZW E2 E3\n\
637271636956EJ 637271636956000000000000000000 38236298217360000000000000000000\n\
654010.137585ZW E2 654010137585000000000000000\n\
664010997979732.40613589525GJ 664010997979732000000000 39840659878783920000000000\n\
7241168120.212472019ZW E2 E3\n\
30.47620075329KW E2 3047620075329/100000000\n\
2765.5206427928775EW E2 2765520642792880000000\n\
6313949079.1682EW E2 6313949079168200000000000000\n\
93467.488851590458474GW E2 186934977703181/2\n\
608867EW E2 608867000000000000000000\n\
37244422761.48554565275582ZJ E3 E3\n\
6073837.416299864984032YW E2 E3\n\
229678.07320KJ 1148390366/5 13780684392\n\
25632281137.380675691933505PW E2 25632281137380700000000000\n\
16195747870942.50894148859452669ZW E2 E3\n\
176510881332218.973291506159YJ E3 E3\n\
81137437414.663747662994GW E2 81137437414663700000\n\
446130833TW E2 446130833000000000000\n\
5159294801977753.7019EJ E3 E3\n\
1685297301.884370374244797ZJ E3 E3\n\
2.485948075TJ 2485948075000 149156884500000\n\
0.87183066YW E2 871830660000000000000000\n\
6895465710736.471406YW E2 E3\n\
5601590453078415.2787TJ 5601590453078420000000000000 336095427184705200000000000000\n\
76195236047259.1MW E2 76195236047259100000";

// Hidden from the proofs, which need not know the lines.
fn energies() -> &'static str {
    ENERGIES
}

fn code(fault: EnergyFault) -> &'static str {
    match fault {
        EnergyFault::NoNumber => "E1",
        EnergyFault::NoUnit => "E2",
        EnergyFault::TooLarge => "E3",
    }
}

// Whether a reading shows as the text says.
fn shows(
    alloc: Global,
    reading: Result<Ratio, EnergyFault>,
    wanted: &str,
) -> Result<bool, NoMemory> {
    match reading {
        Ok(value) => is_shown(alloc, &value, wanted),
        Err(fault) => Ok(code(fault) == wanted),
    }
}

fn is_shown(alloc: Global, value: &Ratio, wanted: &str) -> Result<bool, NoMemory> {
    let text = value.print(alloc)?;
    Ok(text.as_str() == wanted)
}

fn is_energy(alloc: Global, text: &str, wanted: &str) -> Result<bool, NoMemory> {
    shows(alloc, read_energy(text.as_bytes()), wanted)
}

fn is_power(alloc: Global, text: &str, wanted: &str) -> Result<bool, NoMemory> {
    shows(alloc, read_power(text.as_bytes()), wanted)
}

fn is_so(alloc: Global, line: &str) -> Result<bool, NoMemory> {
    let Some((text, rest)) = line.split_once(' ') else {
        return Ok(false);
    };
    let Some((energy, power)) = rest.split_once(' ') else {
        return Ok(false);
    };
    Ok(is_energy(alloc, text, energy)? && is_power(alloc, text, power)?)
}

#[test]
fn energies_and_powers(rt: HostRuntime) -> Result<(), Fail> {
    for line in energies().lines() {
        if !is_so(rt.alloc(), line)? {
            panic!(rt; "{line}");
        }
    }
    Ok(())
}

#[test]
fn a_number_stands_before_its_unit(rt: HostRuntime) -> Result<(), Fail> {
    assert!(rt; is_energy(rt.alloc(), "", "E1")?);
    assert!(rt; is_energy(rt.alloc(), "4 MJ", "E2")?);
    Ok(())
}
