// Counters of given sizes with nothing counted.
ghost use Rattle.std.specs.Prelude.{◌≡◌};
ghost use Rattle.shared.specs.Shared.{shared_meaning, shared_opened};

use crate::counter::SharedDeduction;
use crate::places;
use flow::sizes::Sizes;
use flow::tally::Tally;

impl SharedDeduction {
    // A counter of these sizes, with its places empty.
    pub(super) fn opened(sizes: Sizes) -> SharedDeduction
        ensures { shared_meaning.model result ≡ shared_opened sizes.places }
    {
        SharedDeduction {
            tally: Tally::new(),
            deduction: 0,
            places: places::empty(sizes.places),
        }
    }

    // Empties the counter, with these sizes.
    pub(super) fn reset(&mut self, sizes: Sizes)
        ensures { shared_meaning.model self.new ≡ shared_opened sizes.places }
    {
        places::reset(&mut self.places, sizes.places);
        self.tally = Tally::new();
        self.deduction = 0;
    }
}
