// Account keys: ten ASCII digits.
ghost use Rattle.std.specs.Prelude.{◌≡◌, ◌^◌, ◌<◌, cond, nat_lt};
ghost use Rattle.std.proofs.Common.{arith};
ghost use Rattle.flow.specs.Answers.{answered, refused, told, answer_map};
ghost use Rattle.flow.specs.Keys.{comes_back};
ghost use Rattle.flow.specs.Spellings.{account_spelled};

use crate::code::Code;
use crate::key::FlowKey;
use crate::refusal::Refusal;

// One more than the greatest account number.
const NUMBERS: u64 = 10_000_000_000;

// An account, by its number.
#[derive(Debug, Clone, Copy, PartialEq, Eq, Hash)]
pub struct Account {
    number: u64,
    ghost short: { number < 10 ^ 10 },
}

impl Account {
    // The account with this number, if there is one.
    pub fn new(number: u64) -> Result<Account, Refusal>
        ensures { answer_map (λ k. k.number) (told result) ≡ cond (nat_lt number (10 ^ 10)) (answered number) (refused 14) }
    {
        if number >= NUMBERS {
            return Err(Refusal::NotAKey);
        }
        Ok(Account { number })
    }
}

impl FlowKey for Account {
    const BYTES: usize = 10;

    ghost BYTES = { 10 };

    ghost coded = { λ k. record { high = 0; low = k.number } };

    ghost spelled = { account_spelled };

    ghost back = { comes_back _ (λ x k h. Prim.grind (arith, Self.row.coded.inj)) };

    ghost wide = { λ bytes code h. Prim.grind (arith) };

    fn code(&self) -> Code {
        Code {
            high: 0,
            low: self.number,
        }
    }

    fn of_code(code: Code) -> Result<Self, Refusal> {
        if code.high != 0 {
            return Err(Refusal::NotAKey);
        }
        Account::new(code.low)
    }

    fn read(bytes: &[u8]) -> Result<Self, Refusal> {
        if bytes.len() != Self::BYTES {
            return Err(Refusal::NotAKey);
        }
        // Ten digits fit their type, so no limit is kept here as for the numbers of a text.
        let mut number: u64 = 0;
        for b in bytes {
            if !b.is_ascii_digit() {
                return Err(Refusal::NotAKey);
            }
            number = number * 10 + u64::from(*b - b'0');
        }
        Ok(Account { number })
    }
}
