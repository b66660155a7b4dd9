// IPv6 keys: the sixteen bytes of an address.
ghost use Rattle.std.proofs.Common.{arith};
ghost use Rattle.flow.specs.Keys.{comes_back};
ghost use Rattle.fitting.specs.Addresses.{ipv6_coded, ipv6_spelled};

use flow::code::Code;
use flow::key::FlowKey;
use flow::refusal::Refusal;

// An address, by its halves. Every two numbers of eight bytes are an address's.
#[derive(Debug, Clone, Copy, PartialEq, Eq, Hash)]
pub struct Ipv6 {
    high: u64,
    low: u64,
}

impl FlowKey for Ipv6 {
    const BYTES: usize = 16;

    ghost BYTES = { 16 };

    ghost coded = { ipv6_coded };

    ghost spelled = { ipv6_spelled };

    ghost back = { comes_back _ (λ x k h. Prim.grind (arith, Self.row.coded.inj)) };

    ghost wide = { λ bytes code h. Prim.grind (arith) };

    fn code(&self) -> Code {
        Code {
            high: self.high,
            low: self.low,
        }
    }

    fn of_code(code: Code) -> Result<Self, Refusal> {
        Ok(Ipv6 {
            high: code.high,
            low: code.low,
        })
    }

    fn read(bytes: &[u8]) -> Result<Self, Refusal> {
        let [
            a0,
            a1,
            a2,
            a3,
            a4,
            a5,
            a6,
            a7,
            b0,
            b1,
            b2,
            b3,
            b4,
            b5,
            b6,
            b7,
        ] = bytes
        else {
            return Err(Refusal::NotAKey);
        };
        Ok(Ipv6 {
            high: u64::from_be_bytes([*a0, *a1, *a2, *a3, *a4, *a5, *a6, *a7]),
            low: u64::from_be_bytes([*b0, *b1, *b2, *b3, *b4, *b5, *b6, *b7]),
        })
    }
}
