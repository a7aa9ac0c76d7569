//! What is said of the lines of a script, of which there is room for a few.
use plan_base::{NoMemory, Text};
use program_runs::more_hint;
use std::alloc::Global;

// The most lines that something is said of.
const MOST: u32 = 20;

/// What is said so far.
#[derive(Drop)]
pub struct Telling {
    said: String,
    told: u32,
    more: u32,
}

impl Telling {
    /// Nothing yet.
    pub fn make(alloc: Global) -> Telling {
        Telling {
            said: String::new(alloc),
            told: 0,
            more: 0,
        }
    }

    /// Whether something more may be said, and else counts it.
    pub fn has_room(&mut self) -> bool {
        if self.told < MOST {
            return true;
        }
        self.more = self.more.saturating_add(1);
        false
    }

    /// Says something more.
    pub fn tell(&mut self, text: &Text) -> Result<(), NoMemory> {
        self.said.push_str(text.as_str())?;
        self.told = self.told.saturating_add(1);
        Ok(())
    }

    /// All that is said of a script.
    pub fn end(self, alloc: Global, script: Option<&str>) -> Result<Text, NoMemory> {
        let Telling { said, more, .. } = self;
        let mut said = said;
        if more > 0 {
            let text = more_hint(alloc, script, more)?;
            said.push_str(text.as_str())?;
        }
        Ok(Text::from_string(said))
    }
}
