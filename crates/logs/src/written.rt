// Keys as people write them.
ghost use Rattle.std.specs.Prelude.{◌≡◌, ℕ, ◌<◌, List, Some, MatchOption, slice_index, position, ◌==◌};
ghost use Rattle.std.specs.Fmt.{WritesOnOk};
ghost use Rattle.flow.specs.declared.code.Code.{Code as Coded};
ghost use Rattle.logs.specs.Laws.{single_prefix, single_account};
ghost use Rattle.logs.specs.Texts.{prefix_text, account_text, ReadFrom, WritesByte, WritesInFront, WritesFive};

use flow::account::Account;
use flow::code::Code;
use flow::key::FlowKey;
use flow::prefix::Prefix;
use flow::refusal::Refusal;
use std::fmt;
use text::number;

// A kind of key with a written form.
pub trait WrittenKey: FlowKey + Drop {
    // the written form of the key with this code
    ghost text: { Coded → List ℕ };

    // Writes the key.
    fn write<W: fmt::Write>(&self, f: &mut fmt::Formatter<W>) -> fmt::Result
        ensures { WritesOnOk W.write_str_gives f.old result (text (Self.coded self.now)) f.new };

    // The key that a word writes.
    fn of_word(word: &[u8]) -> Result<Self, Refusal>
        ensures { ReadFrom (λ k. text (Self.coded k)) word.now result };

    // no word writes two keys: keys with one written form have one code
    ghost single: { (j k : Self) → text (Self.coded j) ≡ text (Self.coded k) → Self.coded j ≡ Self.coded k };
}

// A key to be printed in its written form.
#[derive(Clone, Copy)]
pub struct Written<'a, K>(pub &'a K);

impl<'a, K: WrittenKey> fmt::Display for Written<'a, K> {
    ghost output = { λ w. Some (K.text (K.coded w.0.now)) };

    fn fmt<W: fmt::Write>(&self, f: &mut fmt::Formatter<W>) -> fmt::Result {
        self.0.write(f)
    }
}

// The digit with which no number of several digits begins.
const ZERO: u8 = b'0';

// The number from 0 to 255 that these digits write, with no zero in front.
fn byte(digits: &[u8]) -> Option<u8>
    ensures { MatchOption result ((n : ℕ) → WritesByte digits.now n → ⊥) (λ n. WritesByte digits.now n) }
{
    if digits.len() > 1 && digits[0] == ZERO {
        return None;
    }
    u8::try_from(number(digits)?).ok()
}

// Where the byte first stands in the text.
fn find(text: &[u8], byte: u8) -> Option<usize>
    ensures { result ≡ position (λ b. b == byte) text.now }
{
    text.iter().position(|b| *b == byte)
}

// The number in front of the text up to the byte that ends it, and what follows that byte.
fn byte_up_to(text: &[u8], end: u8) -> Option<(u8, &[u8])>
    requires { end < 48 }
    ensures { MatchOption result ((n : ℕ) (rest : List ℕ) → WritesInFront text.now end n rest → ⊥) (λ p. WritesInFront text.now end p.0 p.1.now) }
{
    let at = find(text, end)?;
    let front = byte(&text[..at])?;
    Some((front, &text[at + 1..]))
}

// The five bytes of a word of the form `10.0.0.0/8`.
fn dotted_bytes(word: &[u8]) -> Option<[u8; 5]>
    ensures { MatchOption result ((a b c d len : ℕ) → WritesFive word.now a b c d len → ⊥) (λ bs. WritesFive word.now (slice_index bs 0) (slice_index bs 1) (slice_index bs 2) (slice_index bs 3) (slice_index bs 4)) }
{
    let (a, rest) = byte_up_to(word, b'.')?;
    let (b, rest) = byte_up_to(rest, b'.')?;
    let (c, rest) = byte_up_to(rest, b'.')?;
    let (d, rest) = byte_up_to(rest, b'/')?;
    let len = byte(rest)?;
    Some([a, b, c, d, len])
}

impl WrittenKey for Prefix {
    ghost text = { prefix_text };

    ghost single = { λ j k h. single_prefix j.address k.address j.len k.len j.fits k.fits j.short k.short h };

    fn write<W: fmt::Write>(&self, f: &mut fmt::Formatter<W>) -> fmt::Result {
        let Code { high, low } = self.code();
        let a = low / 0x100_0000;
        let b = low / 0x1_0000 % 0x100;
        let c = low / 0x100 % 0x100;
        let d = low % 0x100;
        write!(f, "{a}.{b}.{c}.{d}/{high}")
    }

    fn of_word(word: &[u8]) -> Result<Self, Refusal> {
        match dotted_bytes(word) {
            Some(bytes) => Prefix::read(&bytes),
            None => Err(Refusal::NotAKey),
        }
    }
}

impl WrittenKey for Account {
    ghost text = { account_text };

    ghost single = { λ j k h. single_account j.number k.number j.short k.short h };

    fn write<W: fmt::Write>(&self, f: &mut fmt::Formatter<W>) -> fmt::Result {
        let number = self.code().low;
        write!(f, "{number:010}")
    }

    fn of_word(word: &[u8]) -> Result<Self, Refusal> {
        Account::read(word)
    }
}
