// Divisions by a step, with their remainders.
ghost use Rattle.std.specs.Prelude.{◌≡◌, ◌+◌, ◌*◌, ◌<◌, Some, MatchOption};
ghost use Rattle.workings.specs.Workings.{division_text};

use std::fmt;

// A number as so many steps and a remainder.
#[derive(Clone, Copy)]
pub struct Division {
    pub number: u64,
    pub step: u32,
    pub quotient: u64,
    pub remainder: u64,
    ghost adds_up: { quotient * step + remainder ≡ number },
    ghost below: { remainder < step },
}

impl Division {
    // The division of the number by the step. None where the step is 0.
    pub fn of(number: u64, step: u32) -> Option<Division>
        ensures { MatchOption result (step ≡ 0) (λ d. (d.number ≡ number) × (d.step ≡ step)) }
    {
        if step == 0 {
            return None;
        }
        let by = u64::from(step);
        Some(Division {
            number,
            step,
            quotient: number / by,
            remainder: number % by,
        })
    }
}

// The division written out.
impl fmt::Display for Division {
    ghost output = { λ d. Some (division_text d.number d.quotient d.step d.remainder) };

    fn fmt<W: fmt::Write>(&self, f: &mut fmt::Formatter<W>) -> fmt::Result {
        let number = self.number;
        let step = self.step;
        let quotient = self.quotient;
        let remainder = self.remainder;
        write!(f, "{number} = {quotient} x {step} + {remainder}")
    }
}
