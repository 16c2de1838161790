// The numbers of ordered markers: which numbering a byte begins, how far its digits run, and what they are worth (RULES M2 to M7).
#![tactic(auto)]

ghost use Rattle.std.specs.Prelude.{◌≡◌, ◌-◌, ◌≤◌, length, drop};
ghost use Rattle.std.specs.List.{prefix_len};
ghost use Rattle.numbers.specs.Numbers.{digit_of, nonzero, letter_of, decimal_of, roman_of, alpha_of, max_of, num_of, is_digit_of, run_of, value_of, begins_of};

use classes;

// How an ordered list counts.
#[derive(Clone, Copy, Debug, PartialEq, Eq)]
pub enum Numbering {
    Decimal,
    AlphaLower,
    AlphaUpper,
    RomanLower,
    RomanUpper,
}

// A numbering's number (E7).
impl From<Numbering> for u8 {
    ghost from_gives = { λ k n. n ≡ num_of k };

    fn from(k: Numbering) -> u8 {
        match k {
            Numbering::Decimal => 1,
            Numbering::AlphaLower => 2,
            Numbering::AlphaUpper => 3,
            Numbering::RomanLower => 4,
            Numbering::RomanUpper => 5,
        }
    }
}

// A decimal digit's value, and 0 for any other byte.
#[tactic(auto, unfolding(crate::specs::Numbers::digit_of))]
pub fn digit(b: u8) -> u64
    ensures { (result ≡ digit_of b) × (result ≤ 9) }
{
    if b.is_ascii_digit() {
        return (b - b'0') as u64;
    }
    0
}

// The value of up to 19 decimal digits: nineteen 9s still fit 64 bits.
pub fn decimal(s: &[u8]) -> u64
    requires { length s.now ≤ 19 }
    ensures { result ≡ decimal_of 0 s.now }
{
    let mut v: u64 = 0;
    for b in s {
        v = v * 10 + digit(*b);
    }
    v
}

// A roman digit's value, of either case.
#[tactic(auto, unfolding(crate::specs::Numbers::letter_of))]
pub fn letter(b: u8) -> Option<u64>
    ensures { result ≡ nonzero (letter_of b) }
{
    match b {
        b'i' | b'I' => Some(1),
        b'v' | b'V' => Some(5),
        b'x' | b'X' => Some(10),
        b'l' | b'L' => Some(50),
        b'c' | b'C' => Some(100),
        b'd' | b'D' => Some(500),
        b'm' | b'M' => Some(1000),
        _ => None,
    }
}

// The value of up to 13 roman digits, read from the right so that no difference goes below zero.
pub fn roman(s: &[u8]) -> u64
    requires { length s.now ≤ 13 }
    ensures { result ≡ roman_of s.now }
{
    let mut v: u64 = 0;
    let mut right: u64 = 0;
    for b in s.iter().rev() {
        let d = letter(*b).unwrap_or(0);
        if d < right {
            v -= d;
        } else {
            v += d;
        }
        right = d;
    }
    v
}

// A letter's place in the alphabet, 1 to 26, in either case.
#[tactic(auto, unfolding(crate::specs::Numbers::alpha_of))]
pub fn alpha(b: u8) -> u64
    ensures { result ≡ alpha_of b }
{
    let v = b as u64;
    if b'a' <= b {
        return v - 96;
    }
    v.saturating_sub(64)
}

// The numbering that a byte begins, and is a digit of: a roman letter is roman.
#[tactic(auto, unfolding(crate::specs::Numbers::begins_of, crate::specs::Numbers::numeral_of, classes::specs::Classes::within))]
pub fn begins(b: u8) -> Option<Numbering>
    ensures { result ≡ begins_of b }
{
    match b {
        b'0'..=b'9' => Some(Numbering::Decimal),
        b'a'..=b'z' if letter(b).is_none() => Some(Numbering::AlphaLower),
        b'a'..=b'z' => Some(Numbering::RomanLower),
        b'A'..=b'Z' if letter(b).is_none() => Some(Numbering::AlphaUpper),
        b'A'..=b'Z' => Some(Numbering::RomanUpper),
        _ => None,
    }
}

// The longest number of a numbering, in bytes.
pub fn max_of(k: Numbering) -> usize
    ensures { result ≡ max_of k }
{
    match k {
        Numbering::Decimal => 19,
        Numbering::AlphaLower | Numbering::AlphaUpper => 1,
        Numbering::RomanLower | Numbering::RomanUpper => 13,
    }
}

// Whether a byte is a digit of the numbering.
fn is_digit(k: Numbering, b: u8) -> bool
    ensures { result ≡ is_digit_of k b }
{
    begins(b) == Some(k)
}

// How many bytes at the front are digits of the numbering.
fn digits(s: &[u8], k: Numbering) -> usize
    ensures { result ≡ prefix_len (is_digit_of k) s.now }
{
    s.iter().take_while(|b| is_digit(k, **b)).count()
}

// How many bytes from `from` on are digits of the numbering, counting no more than its longest number has.
pub fn run(t: &[u8], from: usize, k: Numbering) -> usize
    requires { from ≤ length t.now }
    ensures value { result ≡ run_of k (drop from t.now) }
    ensures most { result ≤ max_of k }
    ensures within { result ≤ length t.now - from }
{
    let rest = &t[from..];
    digits(&rest[..max_of(k).min(rest.len())], k)
}

// What the digits of a number are worth (the Rust's `parse_number`).
pub fn value(s: &[u8], k: Numbering) -> u64
    requires { length s.now ≤ max_of k }
    ensures { result ≡ value_of k s.now }
{
    match k {
        Numbering::Decimal => decimal(s),
        Numbering::AlphaLower | Numbering::AlphaUpper => alpha(classes::byte_at(s, 0)),
        Numbering::RomanLower | Numbering::RomanUpper => roman(s),
    }
}
