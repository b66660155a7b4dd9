// What every kind of flow key promises.
ghost use Rattle.std.specs.Prelude.{◌≡◌, ℕ, List, length, Ok, Some, MatchBool, Option, Result, ◌≢◌};
ghost use Rattle.flow.specs.declared.code.Code.{Code as Coded};
ghost use Rattle.flow.specs.declared.refusal.Refusal.{Refusal as Refused};
ghost use Rattle.flow.specs.Codes.{same};
ghost use Rattle.flow.specs.Answers.{refused, told, answer_map};
ghost use Rattle.flow.specs.Keys.{MadeOf, read_answer};

use crate::code::Code;
use crate::refusal::Refusal;

// A kind of flow key.
pub trait FlowKey: Sized {
    // How many tape bytes a key takes.
    const BYTES: usize;

    ghost BYTES: { ℕ };

    // the code of a key
    ghost coded: { Self → Coded };

    // the code of the key that tape bytes spell, if they spell one
    ghost spelled: { List ℕ → Option Coded };

    // The code of the key.
    fn code(&self) -> Code
        ensures { result ≡ coded self.now };

    // The key with this code.
    fn of_code(code: Code) -> Result<Self, Refusal>
        ensures { MadeOf coded code result };

    // The key that these bytes spell.
    fn read(bytes: &[u8]) -> Result<Self, Refusal>
        ensures { answer_map coded (told result) ≡ read_answer (spelled bytes.now) };

    // The constant `BYTES`, as a call. Bytes of any other number are refused.
    final fn key_bytes() -> usize
        ensures count { result ≡ BYTES }
        ensures no_other_count { (bytes : List ℕ) → length bytes ≢ BYTES → read_answer (spelled bytes) ≡ refused 14 }
    {
        Self::BYTES
    }

    // the key made of a key's code is that key
    ghost back: { (k : Self) (r : Result Self Refused) → MadeOf coded (coded k) r → r ≡ Ok k };

    // only so many bytes spell a key
    ghost wide: { (bytes : List ℕ) (code : Coded) → spelled bytes ≡ Some code → length bytes ≡ BYTES };
}

// Whether two keys have one code.
fn share_a_code<K: FlowKey>(a: &K, b: &K) -> bool
    ensures { result ≡ same (K.coded a.now) (K.coded b.now) }
{
    a.code() == b.code()
}

// Whether two keys are of one flow: their codes tell.
pub fn same_flow<K: FlowKey>(a: &K, b: &K) -> bool
    ensures same { MatchBool result (a.now ≡ b.now) (a.now ≢ b.now) }
    ensures no_two_keys_share_a_code { (j k : K) → K.coded j ≡ K.coded k → j ≡ k }
{
    share_a_code(a, b)
}
