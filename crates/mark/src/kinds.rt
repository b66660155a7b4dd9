// The kinds that a tape names.
ghost use Rattle.std.specs.Prelude.{◌≡◌};
ghost use Rattle.mark.specs.Kinds.{key_kind, counter_kind};

use flow::account::Account;
use inputs::kind::CounterKind;
use shared::SharedDeduction;
use tape::kind::TapeKind;

// A kind of key.
#[derive(Debug, Clone, Copy, PartialEq, Eq)]
pub enum KeyKind {
    Prefix,
    Account,
}

// The kind of key that a tape names: prefixes where its first byte names none or is missing.
pub fn key_kind_of(tape: &[u8]) -> KeyKind
    ensures { result ≡ key_kind tape.now }
{
    match tape {
        [key, ..] if *key == Account::kind_number() => KeyKind::Account,
        _ => KeyKind::Prefix,
    }
}

// The kind of counter that a tape names: semi-ordered where its second byte names none or is missing.
pub fn counter_kind_of(tape: &[u8]) -> CounterKind
    ensures { result ≡ counter_kind tape.now }
{
    match tape {
        [_, counter, ..] if *counter == SharedDeduction::kind_number() => {
            CounterKind::SharedDeduction
        }
        _ => CounterKind::SemiOrdered,
    }
}
