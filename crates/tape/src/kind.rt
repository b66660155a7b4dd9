// The kinds that a tape can name.
ghost use Rattle.std.specs.Prelude.{◌≡◌, ℕ};

use flow::account::Account;
use flow::prefix::Prefix;
use semi::SemiOrdered;
use shared::SharedDeduction;

// A kind of key or of counter, by the byte that names it on a tape.
pub trait TapeKind {
    const NUMBER: u8;

    ghost NUMBER: { ℕ };

    // The constant `NUMBER`, as a call.
    final fn kind_number() -> u8
        ensures { result ≡ NUMBER }
    {
        Self::NUMBER
    }
}

impl TapeKind for Prefix {
    const NUMBER: u8 = 1;

    ghost NUMBER = { 1 };
}

impl TapeKind for Account {
    const NUMBER: u8 = 2;

    ghost NUMBER = { 2 };
}

impl TapeKind for SemiOrdered {
    const NUMBER: u8 = 1;

    ghost NUMBER = { 1 };
}

impl TapeKind for SharedDeduction {
    const NUMBER: u8 = 2;

    ghost NUMBER = { 2 };
}
