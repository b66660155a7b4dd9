// The generator of numbers, splitmix64.
ghost use Rattle.std.specs.Prelude.{◌≡◌, ◌<◌};
ghost use Rattle.streams.specs.Draws.{next_state, state_after, folded, drawn};

// What the state rises by at each draw.
const RISE: u64 = 0x9E37_79B9_7F4A_7C15;

// The multipliers of the two foldings.
const FIRST_MULTIPLIER: u64 = 0xBF58_476D_1CE4_E5B9;

const SECOND_MULTIPLIER: u64 = 0x94D0_49BB_1331_11EB;

// A generator, by its state. Any state will do.
#[derive(Clone, Copy)]
pub struct Generator {
    pub state: u64,
}

impl Generator {
    // The generator of this seed after so many draws.
    pub fn after(seed: u64, draws: u64) -> Generator
        ensures { result.state ≡ state_after seed draws }
    {
        Generator {
            state: seed.wrapping_add(draws.wrapping_mul(RISE)),
        }
    }

    // Goes on to the next state, and draws a number there.
    pub fn draw(&mut self) -> u64
        ensures state { self.new.state ≡ next_state self.old.state }
        ensures number { result ≡ drawn (next_state self.old.state) }
    {
        self.state = self.state.wrapping_add(RISE);
        drawn(self.state)
    }
}

// The number drawn at a state.
fn drawn(state: u64) -> u64
    ensures { result ≡ drawn state }
{
    let once = folded(state, 30, FIRST_MULTIPLIER);
    let twice = folded(once, 27, SECOND_MULTIPLIER);
    twice ^ (twice >> 31)
}

// A number with its high bits folded down by so many places, times a multiplier.
fn folded(number: u64, places: u32, multiplier: u64) -> u64
    requires { places < 64 }
    ensures { result ≡ folded number places multiplier }
{
    (number ^ (number >> places)).wrapping_mul(multiplier)
}
