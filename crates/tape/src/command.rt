// Commands on a tape.
ghost use Rattle.std.specs.Prelude.{◌≡◌, ◌+◌, ◌∷◌, length, take, drop, IfOk};
ghost use Rattle.flow.specs.Answers.{told, answer_map};
ghost use Rattle.flow.specs.Spellings.{be16, be32, be64};
ghost use Rattle.tape.specs.Commands.{plan_bytes, level_bytes, weight_bytes, plan_of, command_map, due, command_named, command_at, size};

use flow::key::FlowKey;
use flow::refusal::Refusal;
use frame::plan::Plan;

// A command, with the bytes of its key where it has one.
#[derive(Debug, Clone, Copy, PartialEq, Eq)]
pub enum Command<B> {
    Plan(Plan),
    Packet(B, u32),
    Estimate(B),
    List,
    Restart,
    Level(u64),
    Trial(u64),
    Close,
}

// The first byte of each command.
const PLAN: u8 = 0x01;

const PACKET: u8 = 0x02;

const ESTIMATE: u8 = 0x03;

const LIST: u8 = 0x04;

const RESTART: u8 = 0x05;

const LEVEL: u8 = 0x06;

const TRIAL: u8 = 0x07;

const CLOSE: u8 = 0x08;

// The plan of these numbers, the most significant byte first.
fn plan_from(
    places: [u8; 2],
    step: [u8; 4],
    most: [u8; 4],
    window: [u8; 4],
    blocks: [u8; 2],
) -> Plan
    ensures { result ≡ record { places = be16 places 0; step = be32 step 0; most = be32 most 0; window = be32 window 0; blocks = be16 blocks 0 } }
{
    Plan {
        places: usize::from(u16::from_be_bytes(places)),
        step: u32::from_be_bytes(step),
        most: u32::from_be_bytes(most),
        window: u32::from_be_bytes(window),
        blocks: u32::from(u16::from_be_bytes(blocks)),
    }
}

// The plan at the front of some bytes, and what follows it.
fn read_plan(bytes: &[u8]) -> Result<(Plan, &[u8]), Refusal>
    ensures value { answer_map (λ p. p.0) (told result) ≡ due plan_bytes bytes.now (plan_of bytes.now) }
    ensures rest { IfOk result (λ p. p.1.now ≡ drop plan_bytes bytes.now) }
    ensures whole { IfOk result (λ p. plan_bytes + length p.1.now ≡ length bytes.now) }
{
    let [
        n1,
        n0,
        s3,
        s2,
        s1,
        s0,
        m3,
        m2,
        m1,
        m0,
        w3,
        w2,
        w1,
        w0,
        b1,
        b0,
        rest @ ..,
    ] = bytes
    else {
        return Err(Refusal::TapeEnds);
    };
    let step = [*s3, *s2, *s1, *s0];
    let most = [*m3, *m2, *m1, *m0];
    let window = [*w3, *w2, *w1, *w0];
    Ok((plan_from([*n1, *n0], step, most, window, [*b1, *b0]), rest))
}

// The level at the front of some bytes, and what follows it.
fn read_level(bytes: &[u8]) -> Result<(u64, &[u8]), Refusal>
    ensures value { answer_map (λ p. p.0) (told result) ≡ due level_bytes bytes.now (be64 bytes.now 0) }
    ensures rest { IfOk result (λ p. p.1.now ≡ drop level_bytes bytes.now) }
    ensures whole { IfOk result (λ p. level_bytes + length p.1.now ≡ length bytes.now) }
{
    let [h7, h6, h5, h4, h3, h2, h1, h0, rest @ ..] = bytes else {
        return Err(Refusal::TapeEnds);
    };
    Ok((
        u64::from_be_bytes([*h7, *h6, *h5, *h4, *h3, *h2, *h1, *h0]),
        rest,
    ))
}

// The weight at the front of some bytes, and what follows it.
fn read_weight(bytes: &[u8]) -> Result<(u32, &[u8]), Refusal>
    ensures value { answer_map (λ p. p.0) (told result) ≡ due weight_bytes bytes.now (be32 bytes.now 0) }
    ensures rest { IfOk result (λ p. p.1.now ≡ drop weight_bytes bytes.now) }
    ensures whole { IfOk result (λ p. weight_bytes + length p.1.now ≡ length bytes.now) }
{
    let [w3, w2, w1, w0, rest @ ..] = bytes else {
        return Err(Refusal::TapeEnds);
    };
    Ok((u32::from_be_bytes([*w3, *w2, *w1, *w0]), rest))
}

// The bytes of a key at the front of some bytes, and what follows them.
fn read_key<K: FlowKey>(bytes: &[u8]) -> Result<(&[u8], &[u8]), Refusal>
    ensures value { answer_map (λ p. p.0.now) (told result) ≡ due K.BYTES bytes.now (take K.BYTES bytes.now) }
    ensures rest { IfOk result (λ p. p.1.now ≡ drop K.BYTES bytes.now) }
    ensures whole { IfOk result (λ p. K.BYTES + length p.1.now ≡ length bytes.now) }
{
    bytes
        .split_at_checked(K::key_bytes())
        .ok_or(Refusal::TapeEnds)
}

// The key and the weight at the front of some bytes, and what follows them.
fn read_packet<K: FlowKey>(bytes: &[u8]) -> Result<(&[u8], u32, &[u8]), Refusal>
    ensures key { answer_map (λ p. p.0.now) (told result) ≡ due (K.BYTES + weight_bytes) bytes.now (take K.BYTES bytes.now) }
    ensures weight { answer_map (λ p. p.1) (told result) ≡ due (K.BYTES + weight_bytes) bytes.now (be32 bytes.now K.BYTES) }
    ensures rest { IfOk result (λ p. p.2.now ≡ drop (K.BYTES + weight_bytes) bytes.now) }
    ensures whole { IfOk result (λ p. K.BYTES + weight_bytes + length p.2.now ≡ length bytes.now) }
{
    let (key, after) = read_key::<K>(bytes)?;
    let (weight, rest) = read_weight(after)?;
    Ok((key, weight, rest))
}

impl<'a> Command<&'a [u8]> {
    // The command of this first byte, with its operands, and what follows them.
    fn read_named<K: FlowKey>(byte: u8, operands: &'a [u8]) -> Result<(Self, &'a [u8]), Refusal>
        ensures command { answer_map (λ p. command_map (λ key. key.now) p.0) (told result) ≡ command_named K.BYTES byte operands.now }
        ensures rest { IfOk result (λ p. p.1.now ≡ drop (size K.BYTES p.0) (byte ∷ operands.now)) }
        ensures whole { IfOk result (λ p. size K.BYTES p.0 + length p.1.now ≡ length operands.now + 1) }
    {
        match byte {
            PLAN => {
                let (plan, rest) = read_plan(operands)?;
                Ok((Command::Plan(plan), rest))
            }
            PACKET => {
                let (key, weight, rest) = read_packet::<K>(operands)?;
                Ok((Command::Packet(key, weight), rest))
            }
            ESTIMATE => {
                let (key, rest) = read_key::<K>(operands)?;
                Ok((Command::Estimate(key), rest))
            }
            LIST => Ok((Command::List, operands)),
            RESTART => Ok((Command::Restart, operands)),
            LEVEL => {
                let (level, rest) = read_level(operands)?;
                Ok((Command::Level(level), rest))
            }
            TRIAL => {
                let (level, rest) = read_level(operands)?;
                Ok((Command::Trial(level), rest))
            }
            CLOSE => Ok((Command::Close, operands)),
            _ => Err(Refusal::KindOrCommandUnknown),
        }
    }

    // The command at the front of some bytes of a tape, and what follows it.
    pub fn read<K: FlowKey>(tape: &'a [u8]) -> Result<(Self, &'a [u8]), Refusal>
        ensures command { answer_map (λ p. command_map (λ key. key.now) p.0) (told result) ≡ command_at K.BYTES tape.now }
        ensures rest { IfOk result (λ p. p.1.now ≡ drop (size K.BYTES p.0) tape.now) }
        ensures whole { IfOk result (λ p. size K.BYTES p.0 + length p.1.now ≡ length tape.now) }
    {
        match tape {
            [byte, operands @ ..] => Self::read_named::<K>(*byte, operands),
            [] => Err(Refusal::TapeEnds),
        }
    }
}
