// The first line that asks for the full listing: `full`, alone on it (RULES V12, V13).
#![tactic(auto)]

ghost use Rattle.std.specs.Prelude.{◌≡◌};
ghost use Rattle.heads.specs.Heads.{asks_full, mode_of, text_of};

use equals;
use listing::{FULL, SHORT};
use trim;

// Whether a file has the line: it is just `full`, or begins with `full` and a newline.
fn asks_full(file: &[u8]) -> bool
    ensures { result ≡ asks_full file.now }
{
    if equals::same(file, b"full") {
        return true;
    }
    equals::same(trim::part(file, 0, 5), b"full\n")
}

// The listing's mode that a file asks for.
pub fn mode_of(file: &[u8]) -> u64
    ensures { result ≡ mode_of file.now }
{
    if asks_full(file) {
        return FULL;
    }
    SHORT
}

// What a file has behind the line, or all of it where it has no such line.
pub fn text_of(file: &[u8]) -> &[u8]
    ensures { result.now ≡ text_of file.now }
{
    if asks_full(file) {
        return trim::part(file, 5, file.len());
    }
    file
}
