// The generator of a sample's numbers.
ghost use Rattle.std.specs.Prelude.{◌≡◌, ◌/◌, ◌%◌, ◌^◌, ◌<◌};
ghost use Rattle.sample_maker.specs.Draws.{next};

const MULTIPLIER: u64 = 1_103_515_245;

const INCREMENT: u64 = 12_345;

const MODULUS: u64 = 1 << 31;

/// A linear congruential generator.
#[derive(Drop)]
pub struct Draws {
    pub state: u64,
    ghost in_range: { state < 2 ^ 31 },
}

impl Draws {
    /// The generator that starts at a number.
    pub fn from_number(number: u32) -> Draws
        ensures { result.state ≡ number % 2 ^ 31 }
    {
        Draws {
            state: u64::from(number) % MODULUS,
        }
    }

    /// Goes on by one state, and draws a number below the bound from it.
    #[tactic(auto, unfolding(crate::specs::Draws::next))]
    pub fn below(&mut self, bound: u32) -> u32
        requires { 0 < bound }
        ensures state { self.new.state ≡ next self.old.state }
        ensures drawn { result ≡ next self.old.state / 65536 % bound }
        ensures below { result < bound }
    {
        self.state = (self.state * MULTIPLIER + INCREMENT) % MODULUS;
        (self.state / 65_536) as u32 % bound
    }
}
