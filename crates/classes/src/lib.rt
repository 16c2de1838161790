// Bytes: reading one, and the byte classes (RULES G1 to G4). Every rule that asks what sort of byte it sees asks here.
#![tactic(auto)]

ghost use Rattle.std.specs.Prelude.{◌≡◌, ◌<◌, ◌≤◌, ℕ, Bool, true, false, not, length, get_or, position, IfSome};
ghost use Rattle.std.specs.List.{list_all};
ghost use Rattle.classes.specs.Last.{IsLast};
ghost use Rattle.classes.specs.Classes.{within, is_space, is_name, is_bullet, is_punct};

// The byte at a place, and 0 past the end.
pub fn byte_at(s: &[u8], i: usize) -> u8
    ensures { result ≡ get_or s.now i 0 }
{
    s.get(i).copied().unwrap_or(0)
}

// Whether b lies from lo to hi.
pub fn in_range(lo: u8, hi: u8, b: u8) -> bool
    ensures { result ≡ within lo hi b }
{
    lo <= b && b <= hi
}

// Whitespace: space, tab, LF, FF, CR. Tests of one byte each become one test of a bit; with `matches!` they take 1.2 to 2 times as long where b is none of them.
pub fn is_space(b: u8) -> bool
    ensures { result ≡ is_space b }
{
    b == b' ' || b == b'\t' || b == b'\n' || b == 12 || b == b'\r'
}

// A name byte: letter, digit, `_`, `-`, `:`. With `matches!` for all of them this takes 1.3 times as long.
pub fn is_name(b: u8) -> bool
    ensures { result ≡ is_name b }
{
    in_range(b'a', b'z', b)
        || in_range(b'A', b'Z', b)
        || in_range(b'0', b'9', b)
        || matches!(b, b'_' | b'-' | b':')
}

// A bullet: `-`, `*`, `+`.
pub fn is_bullet(b: u8) -> bool
    ensures { result ≡ is_bullet b }
{
    matches!(b, b'-' | b'*' | b'+')
}

// ASCII punctuation: what a backslash hides in a table row. With `matches!` it is a tree of comparisons, too.
#[tactic(auto, unfolding(crate::specs::Classes::is_punct))]
pub fn is_punct(b: u8) -> bool
    ensures { result ≡ is_punct b }
{
    in_range(b'!', b'/', b)
        || in_range(b':', b'@', b)
        || in_range(b'[', b'`', b)
        || in_range(b'{', b'~', b)
}

// Whether none of these bytes passes the test. All are read, so that sixteen are compared at a time.
fn none_of<F: Fn(u8) -> bool>(part: &[u8], test: &F) -> bool
    requires { F.IsAlwaysCallable test.now }
    ensures { (p : ℕ → Bool) → ((x : ℕ) (r : Bool) → F.post test.now x r → r ≡ p x) → result ≡ list_all (λ x. not (p x)) part.now }
{
    !part.iter().fold(false, |any, b| any | test(*b))
}

// How many bytes at the front surely do not pass: sixteens, up to the one with a byte that does.
fn skip<F: Fn(u8) -> bool>(s: &[u8], test: &F) -> usize
    requires { F.IsAlwaysCallable test.now }
    ensures bound { result ≤ length s.now }
    ensures none { (p : ℕ → Bool) → ((x : ℕ) (r : Bool) → F.post test.now x r → r ≡ p x) → (i : ℕ) → i < result → p (get_or s.now i 0) ≡ false }
{
    16 * s
        .chunks_exact(16)
        .take_while(|part| none_of(part, test))
        .count()
}

// Where the first byte stands that passes a test, which is to say p of each byte.
pub fn find<F: Fn(u8) -> bool>(s: &[u8], test: F) -> Option<usize>
    requires { F.IsAlwaysCallable test }
    ensures { (p : ℕ → Bool) → ((x : ℕ) (r : Bool) → F.post test x r → r ≡ p x) → result ≡ position p s.now }
{
    let skipped = skip(s, &test);
    Some(skipped + s[skipped..].iter().position(|b| test(*b))?)
}

// Where the last byte stands that passes a test, which is to say p of each byte.
pub fn rfind<F: Fn(u8) -> bool>(s: &[u8], test: F) -> Option<usize>
    requires { F.IsAlwaysCallable test }
    ensures place { (p : ℕ → Bool) → ((x : ℕ) (r : Bool) → F.post test x r → r ≡ p x) → IsLast p s.now result }
    ensures bound { IfSome result (λ i. i < length s.now) }
{
    s.iter().rposition(|b| test(*b))
}
