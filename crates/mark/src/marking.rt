// Marking a tape over the kinds that it names.
ghost use Rattle.std.specs.Prelude.{◌≡◌, length, IfOk, OnOk};
ghost use Rattle.sitting.specs.Tapes.{left_by, tape_turns, tape_text};
ghost use Rattle.sitting.specs.Sittings.{lent};
ghost use Rattle.sitting.specs.Turns.{text_left, table_left, scratch_left};
ghost use Rattle.mark.specs.Kinds.{key_kind, counter_kind, over_kinds, MarkedOver};
ghost use Rattle.mark.specs.Worked.{Worked};

use crate::kinds::{KeyKind, counter_kind_of, key_kind_of};
use flow::account::Account;
use flow::prefix::Prefix;
use inputs::kind::CounterKind;
use meter::record::Record;
use semi::SemiOrdered;
use shared::SharedDeduction;
use sitting::marking::mark_tape;
use std::alloc::{AllocError, Global};

// Begins a sitting for the kinds that the tape names, drives it to its end, and answers all its lines.
// The rules say of the worked tapes what was reckoned by hand.
pub fn mark(
    heap: Global,
    tape: &[u8],
    text: &mut [u8],
    scratch: &mut [u8],
    table: &mut [Record],
) -> Result<Vec<u8>, AllocError>
    ensures lines { IfOk result (λ v. v.items ≡ over_kinds (key_kind tape.now) (counter_kind tape.now) (λ spelled key_bytes k c C m x.
        tape_text spelled (lent scratch.old table.old) key_bytes k c tape.now (length text.old) m x)) }
    ensures guarantee { IfOk result (λ v. MarkedOver (key_kind tape.now) (counter_kind tape.now) tape.now (length text.old) (lent scratch.old table.old) v.items) }
    ensures text { OnOk result (text.new ≡ over_kinds (key_kind tape.now) (counter_kind tape.now) (λ spelled key_bytes k c C m x.
        left_by text_left (tape_turns spelled (lent scratch.old table.old) key_bytes k c tape.now (length text.old) m x) text.old)) }
    ensures scratch { OnOk result (scratch.new ≡ over_kinds (key_kind tape.now) (counter_kind tape.now) (λ spelled key_bytes k c C m x.
        left_by scratch_left (tape_turns spelled (lent scratch.old table.old) key_bytes k c tape.now (length text.old) m x) scratch.old)) }
    ensures table { OnOk result (table.new ≡ over_kinds (key_kind tape.now) (counter_kind tape.now) (λ spelled key_bytes k c C m x.
        left_by table_left (tape_turns spelled (lent scratch.old table.old) key_bytes k c tape.now (length text.old) m x) table.old)) }
    ensures worked_tapes_stand { Worked }
{
    match (key_kind_of(tape), counter_kind_of(tape)) {
        (KeyKind::Prefix, CounterKind::SemiOrdered) => {
            mark_tape::<Prefix, SemiOrdered>(heap, SemiOrdered::new(), tape, text, scratch, table)
        }
        (KeyKind::Prefix, CounterKind::SharedDeduction) => {
            mark_tape::<Prefix, SharedDeduction>(
                heap,
                SharedDeduction::new(),
                tape,
                text,
                scratch,
                table,
            )
        }
        (KeyKind::Account, CounterKind::SemiOrdered) => {
            mark_tape::<Account, SemiOrdered>(heap, SemiOrdered::new(), tape, text, scratch, table)
        }
        (KeyKind::Account, CounterKind::SharedDeduction) => {
            mark_tape::<Account, SharedDeduction>(
                heap,
                SharedDeduction::new(),
                tape,
                text,
                scratch,
                table,
            )
        }
    }
}
