// The kinds by their numbers on a tape.
use crate::ipv6::Ipv6;
use crate::space_saving::SpaceSaving;
use tape::kind::TapeKind;

impl TapeKind for Ipv6 {
    const NUMBER: u8 = 3;

    ghost NUMBER = { 3 };
}

impl TapeKind for SpaceSaving {
    const NUMBER: u8 = 3;

    ghost NUMBER = { 3 };
}
