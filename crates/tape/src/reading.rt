// Reading a tape from a place on.
ghost use Rattle.std.specs.Prelude.{◌≡◌, ◌<◌, ◌≤◌, length, IfOk};
ghost use Rattle.flow.specs.Limits.{most_tape};
ghost use Rattle.tape.specs.Readings.{command_from, first_command, found_of, next_command};

use crate::command::Command;
use crate::kind::TapeKind;
use flow::key::FlowKey;
use flow::limits::MOST_TAPE;
use flow::refusal::Refusal;

// A command on a tape, with the offset of its first byte and that of what follows it.
#[derive(Debug, Clone, Copy, PartialEq, Eq)]
pub struct Placed<B> {
    pub offset: usize,
    pub command: Command<B>,
    pub end: usize,
}

// A refusal, with the offset of the byte that it speaks of.
#[derive(Debug, Clone, Copy, PartialEq, Eq)]
pub struct Fault {
    pub refusal: Refusal,
    pub offset: usize,
}

// The command at an offset of a tape.
fn command_from<K: FlowKey>(tape: &[u8], offset: usize) -> Result<Placed<&[u8]>, Fault>
    ensures found { found_of (λ key. key.now) result ≡ command_from K.BYTES offset tape.now }
    ensures ahead { IfOk result (λ p. (offset < p.end) × (p.end ≤ length tape.now)) }
{
    let ahead = tape.get(offset..).unwrap_or_default();
    let (command, rest) = Command::read::<K>(ahead).map_err(|refusal| Fault { refusal, offset })?;
    Ok(Placed {
        offset,
        command,
        end: tape.len() - rest.len(),
    })
}

// The first command of a tape, behind the bytes that name its kinds.
fn first_command<K: FlowKey + TapeKind, C: TapeKind>(tape: &[u8]) -> Result<Placed<&[u8]>, Fault>
    ensures found { found_of (λ key. key.now) result ≡ first_command K.BYTES K.NUMBER C.NUMBER tape.now }
    ensures ahead { IfOk result (λ p. (0 < p.end) × (p.end ≤ length tape.now)) }
{
    let (refusal, offset) = match tape {
        [key, ..] if *key != K::kind_number() => (Refusal::KindOrCommandUnknown, 0),
        [_, counter, ..] if *counter != C::kind_number() => (Refusal::KindOrCommandUnknown, 1),
        [_, _, ..] => return command_from::<K>(tape, 2),
        [] | [_] => (Refusal::TapeEnds, tape.len()),
    };
    Err(Fault { refusal, offset })
}

// The next command of a tape from a place on.
pub fn next_command<K: FlowKey + TapeKind, C: TapeKind>(
    tape: &[u8],
    place: usize,
) -> Result<Placed<&[u8]>, Fault>
    ensures found { found_of (λ key. key.now) result ≡ next_command K.BYTES K.NUMBER C.NUMBER place tape.now }
    ensures ahead { IfOk result (λ p. (place < p.end) × (p.end ≤ length tape.now) × (p.end ≤ most_tape)) }
{
    if tape.len() > MOST_TAPE {
        return Err(Fault {
            refusal: Refusal::TapeTooLong,
            offset: 0,
        });
    }
    if place == 0 {
        first_command::<K, C>(tape)
    } else {
        command_from::<K>(tape, place)
    }
}
