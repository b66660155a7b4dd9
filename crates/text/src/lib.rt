// Lines, words and numbers of a text input.
#![tactic(auto)]

ghost use Rattle.std.specs.Prelude.{◌≡◌, ℕ, Bool, ◌+◌, take, drop, ◌*◌, [], length, MatchBool, MatchOption, ◌≢◌};
ghost use Rattle.std.specs.Iterator.{at_most};
ghost use Rattle.std.specs.Option.{option_copied};
ghost use Rattle.std.specs.Str.Parse.{IsNumeral};
ghost use Rattle.text.specs.Reading.{is_space, in_line, Tells, front, line_of, after_line, TakesLine, word_of, after_word, capped, Writes};

const NEWLINE: u8 = b'\n';

// Whether a byte parts words: a space, a tab or a carriage return.
fn is_space(b: u8) -> bool
    ensures { result ≡ is_space b }
{
    b == b' ' || b == b'\t' || b == b'\r'
}

// Whether a byte belongs to a line: any but a newline does.
fn is_in_line(b: u8) -> bool
    ensures { result ≡ in_line b }
{
    b != NEWLINE
}

// The bytes in front that belong, and what follows them.
fn split_front<P: Fn(u8) -> bool>(text: &[u8], belongs: P) -> (&[u8], &[u8])
    requires { P.IsAlwaysCallable belongs }
    ensures { (test : ℕ → Bool) → Tells (P.post belongs) test → (result.0.now ≡ take (front test text.now) text.now) × (result.1.now ≡ drop (front test text.now) text.now) }
{
    let length = text.iter().take_while(|b| belongs(**b)).count();
    text.split_at(length)
}

// The first line of the text, without its newline, and what follows it.
pub fn next_line(text: &[u8]) -> (&[u8], &[u8])
    ensures line { result.0.now ≡ line_of text.now }
    ensures after { result.1.now ≡ after_line text.now }
{
    let (line, rest) = split_front(text, is_in_line);
    match rest {
        [_, after @ ..] => (line, after),
        [] => (line, rest),
    }
}

// The lines of a text, from the first to the last. An empty text has none.
#[derive(Clone, Copy)]
pub struct Lines<'a> {
    rest: &'a [u8],
}

impl<'a> Lines<'a> {
    // The lines of this text.
    pub fn of(text: &'a [u8]) -> Lines<'a>
        ensures { result.rest.now ≡ text.now }
    {
        Lines { rest: text }
    }
}

impl<'a> Iterator for Lines<'a> {
    type Item = &'a [u8];

    ghost next_gives = { λ s r t. TakesLine s.rest.now (option_copied r) t.rest.now };

    ghost remaining = { λ s. at_most (length s.rest.now) };

    fn next(&mut self) -> Option<&'a [u8]> {
        if self.rest.is_empty() {
            return None;
        }
        let (line, after) = next_line(self.rest);
        self.rest = after;
        Some(line)
    }
}

// The first word of the line, empty where there is none, and what follows it.
pub fn next_word(line: &[u8]) -> (&[u8], &[u8])
    ensures word { result.0.now ≡ word_of line.now }
    ensures after { result.1.now ≡ after_word line.now }
{
    let (_, rest) = split_front(line, is_space);
    split_front(rest, |b| !is_space(b))
}

// Whether the line has no word.
pub fn is_blank(line: &[u8]) -> bool
    ensures { MatchBool result (word_of line.now ≡ []) (word_of line.now ≢ []) }
{
    next_word(line).0.is_empty()
}

// The number with one more digit behind it, or the greatest of its type where that is larger.
fn with_digit(n: u64, digit: u8) -> u64
    ensures { result ≡ capped 64 (capped 64 (n * 10) + digit) }
{
    n.saturating_mul(10).saturating_add(u64::from(digit))
}

// The number that a word of digits writes, or the greatest of its type where it is larger. None for any other word.
pub fn number(word: &[u8]) -> Option<u64>
    ensures { MatchOption result (IsNumeral 10 word.now → ⊥) (λ n. Writes 64 word.now n) }
{
    if word.is_empty() {
        return None;
    }
    // `str::parse` takes a sign and refuses a number that is too large, so the digits are read here.
    let mut n: u64 = 0;
    for b in word {
        if !b.is_ascii_digit() {
            return None;
        }
        n = with_digit(n, *b - b'0');
    }
    Some(n)
}

// The number that a word of digits writes, or the greatest of 32 bits where it is larger. None for any other word.
pub fn small_number(word: &[u8]) -> Option<u32>
    ensures { MatchOption result (IsNumeral 10 word.now → ⊥) (λ n. Writes 32 word.now n) }
{
    let n = number(word)?;
    Some(u32::try_from(n).unwrap_or(u32::MAX))
}
