// Numbers on a line.
ghost use Rattle.std.specs.Prelude.{◌≡◌, ◌∷◌, ◌++◌, IfOk, string_bytes};
ghost use Rattle.fractions.specs.Print.{printed};

use fractions::Ratio;
use plan_base::NoMemory;
use std::alloc::Global;

/// A word and a number, each behind a space, before the end of their line.
pub fn number_end(
    alloc: Global,
    word: &str,
    number: &Ratio,
    end: String,
) -> Result<String, NoMemory>
    ensures { IfOk result (λ text. string_bytes text ≡ 32 ∷ (word.now ++ 32 ∷ (printed number.now ++ string_bytes end))) }
{
    let number = number.print(alloc)?;
    Ok(format!(in alloc; " {word} {}{end}", number.as_str())?)
}
