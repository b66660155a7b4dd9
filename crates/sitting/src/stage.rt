// The stages of a sitting.
ghost use Rattle.std.specs.Prelude.{◌≡◌};
ghost use Rattle.sitting.specs.Tapes.{ending_of};

use crate::ending::Ending;
use crate::settings::Settings;

// How far a sitting is: no plan was accepted yet, or lists have a standing level, or its tape is read no further.
#[derive(Debug, Clone, Copy, PartialEq, Eq)]
pub enum Stage {
    Unplanned,
    Planned(Settings),
    Done(Ending),
}

impl Stage {
    // How a sitting ends in this stage.
    pub(crate) fn ending(self) -> Ending
        ensures { result ≡ ending_of self }
    {
        match self {
            Stage::Unplanned | Stage::Planned(_) => Ending::Broken,
            Stage::Done(ending) => ending,
        }
    }
}
