// A meter and a sitting over addresses, counted by a Space-Saving counter.
ghost use Rattle.std.specs.Prelude.{◌≡◌, length, map, IfOk, OnOk};
ghost use Rattle.fitting.specs.Addresses.{ipv6_coded, ipv6_spelled};
ghost use Rattle.fitting.specs.SpaceSaving.{space_meaning, space_opened};
ghost use Rattle.meter.specs.Days.{said, Day};
ghost use Rattle.meter.specs.Sequences.{day_said};
ghost use Rattle.meter.specs.States.{unplanned};
ghost use Rattle.sitting.specs.Markings.{Marked};
ghost use Rattle.sitting.specs.Sittings.{lent};
ghost use Rattle.sitting.specs.Tapes.{left_by, tape_turns, tape_text};
ghost use Rattle.sitting.specs.Turns.{text_left, table_left, scratch_left};

use crate::ipv6::Ipv6;
use crate::space_saving::SpaceSaving;
use meter::day::{Answered, Call, day};
use meter::record::Record;
use sitting::marking::mark_tape;
use std::alloc::{AllocError, Global};

// Makes a day of calls and answers all of them.
pub fn meter_addresses(heap: Global, calls: &[Call<Ipv6>]) -> Result<Vec<Answered>, AllocError>
    ensures guarantee { IfOk result (λ answers. Day ipv6_coded 1 calls.now (map said answers.items)) }
    ensures answers { IfOk result (λ answers. map said answers.items ≡ day_said ipv6_coded space_meaning (unplanned (space_opened 1)) calls.now) }
{
    day(heap, SpaceSaving::new(), calls)
}

// Marks a tape and answers all its lines.
pub fn mark_addresses(
    heap: Global,
    tape: &[u8],
    text: &mut [u8],
    scratch: &mut [u8],
    table: &mut [Record],
) -> Result<Vec<u8>, AllocError>
    ensures lines { IfOk result (λ v. v.items ≡ tape_text ipv6_spelled (lent scratch.old table.old) 16 3 3 tape.now (length text.old) space_meaning (space_opened 1)) }
    ensures guarantee { IfOk result (λ v. Marked ipv6_spelled (lent scratch.old table.old) 16 3 3 tape.now (length text.old) 1 v.items) }
    ensures text { OnOk result (text.new ≡ left_by text_left (tape_turns ipv6_spelled (lent scratch.old table.old) 16 3 3 tape.now (length text.old) space_meaning (space_opened 1)) text.old) }
    ensures scratch { OnOk result (scratch.new ≡ left_by scratch_left (tape_turns ipv6_spelled (lent scratch.old table.old) 16 3 3 tape.now (length text.old) space_meaning (space_opened 1)) scratch.old) }
    ensures table { OnOk result (table.new ≡ left_by table_left (tape_turns ipv6_spelled (lent scratch.old table.old) 16 3 3 tape.now (length text.old) space_meaning (space_opened 1)) table.old) }
{
    mark_tape::<Ipv6, SpaceSaving>(heap, SpaceSaving::new(), tape, text, scratch, table)
}
