// IPv4 prefix keys: four bytes of address and one of length.
ghost use Rattle.std.specs.Prelude.{◌≡◌, ◌-◌, ◌%◌, ◌^◌, ◌<◌, ◌≤◌, MatchBool, MatchResult, ◌≢◌};
ghost use Rattle.std.proofs.Common.{arith};
ghost use Rattle.flow.specs.Keys.{comes_back};
ghost use Rattle.flow.specs.Refusals.{number};
ghost use Rattle.flow.specs.Spellings.{prefix_spelled};

use crate::code::Code;
use crate::key::FlowKey;
use crate::refusal::Refusal;

// The greatest length of a prefix.
const MOST_LENGTH: u8 = 32;

// An IPv4 prefix: the address bits beyond its length are zero.
#[derive(Debug, Clone, Copy, PartialEq, Eq, Hash)]
pub struct Prefix {
    address: u32,
    len: u8,
    ghost fits: { address < 2 ^ 32 },
    ghost short: { len ≤ 32 },
    ghost lawful: { address % 2 ^ (32 - len) ≡ 0 },
}

// Whether the address bits beyond the length are zero.
fn ends_in_zeros(address: u32, len: u8) -> bool
    requires { len ≤ 32 }
    ensures { MatchBool result (address % 2 ^ (32 - len) ≡ 0) (address % 2 ^ (32 - len) ≢ 0) }
{
    u64::from(address) % (1u64 << (MOST_LENGTH - len)) == 0
}

impl Prefix {
    // The prefix of this address and length, if it is one.
    pub fn new(address: u32, len: u8) -> Result<Prefix, Refusal>
        ensures { MatchResult result (λ k. (k.address ≡ address) × (k.len ≡ len)) (λ e. (number e ≡ 14) × (len ≤ 32 → address % 2 ^ (32 - len) ≢ 0)) }
    {
        if len > MOST_LENGTH || !ends_in_zeros(address, len) {
            return Err(Refusal::NotAKey);
        }
        Ok(Prefix { address, len })
    }
}

impl FlowKey for Prefix {
    const BYTES: usize = 5;

    ghost BYTES = { 5 };

    ghost coded = { λ k. record { high = k.len; low = k.address } };

    ghost spelled = { prefix_spelled };

    ghost back = { comes_back _ (λ x k h. Prim.grind (arith, Self.row.coded.inj)) };

    ghost wide = { λ bytes code h. Prim.grind (arith) };

    fn code(&self) -> Code {
        Code {
            high: u64::from(self.len),
            low: u64::from(self.address),
        }
    }

    fn of_code(code: Code) -> Result<Self, Refusal> {
        let (Ok(address), Ok(len)) = (u32::try_from(code.low), u8::try_from(code.high)) else {
            return Err(Refusal::NotAKey);
        };
        Prefix::new(address, len)
    }

    fn read(bytes: &[u8]) -> Result<Self, Refusal> {
        let [a, b, c, d, len] = bytes else {
            return Err(Refusal::NotAKey);
        };
        Prefix::new(u32::from_be_bytes([*a, *b, *c, *d]), *len)
    }
}
