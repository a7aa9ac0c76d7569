//! Why words ask for nothing.
use plan_base::NoMemory;
use production_table::LIMIT;

/// What a word has to be.
#[derive(Clone, Copy)]
pub enum Wanted {
    Import,
    /// A number that is not below 0.
    Price,
    /// A rate above 0.
    Rate,
    /// A whole number from 0 to 65,535.
    Count,
    /// A whole number from 1 to the most rows of a table.
    Rows,
    Cheapest,
}

/// Why the words ask for nothing.
#[derive(Clone, Copy)]
pub enum WordFault<'a> {
    /// A word isn't what it has to be.
    Bad(&'a str, Wanted),
    /// A good has no rate, and no belt is named.
    NoRate(&'a str),
    /// A rate stands behind no good.
    NoGood(&'a str),
    /// Neither goods are wished for nor more rows.
    NoWish,
    /// Goods are wished for, and more rows too.
    Both,
    NoMemory,
}

fn say_bad(word: &str, wanted: Wanted, said: &mut String) -> Result<(), NoMemory> {
    match wanted {
        Wanted::Import => write!(said, "{word} is no GOOD=PRICE")?,
        Wanted::Price => write!(
            said,
            "{word} is no price: a number or a fraction, not below 0"
        )?,
        Wanted::Rate => write!(
            said,
            "{word} is no rate: a number above 0 or a fraction, as 45/min, 2.5k/h or 1/3"
        )?,
        Wanted::Count => write!(said, "{word} is no whole number from 0 to 65535")?,
        Wanted::Rows => write!(said, "{word} is no whole number from 1 to {LIMIT}")?,
        Wanted::Cheapest => write!(said, "{word} is none of power, pollution and machines")?,
    }
    Ok(())
}

impl WordFault<'_> {
    /// Writes what is to be said of the fault.
    ///
    /// # Errors
    ///
    /// `NoMemory` where memory could not be had, as in the fault of this name.
    pub fn say(&self, said: &mut String) -> Result<(), NoMemory> {
        match self {
            WordFault::Bad(word, wanted) => say_bad(word, *wanted, said),
            WordFault::NoRate(word) => {
                write!(said, "{word} has no rate behind it, and no --belt is named")?;
                Ok(())
            }
            WordFault::NoGood(word) => {
                write!(said, "{word} is a rate with no good before it")?;
                Ok(())
            }
            WordFault::NoWish => {
                said.push_str("no GOOD and no RATE are named, nor --rows-for and --into")?;
                Ok(())
            }
            WordFault::Both => {
                said.push_str("--rows-for takes no GOOD and no RATE beside it")?;
                Ok(())
            }
            WordFault::NoMemory => Err(NoMemory),
        }
    }
}
