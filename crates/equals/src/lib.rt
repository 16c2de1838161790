// Equal byte strings (RULES Z2).
#![tactic(auto)]

ghost use Rattle.std.specs.Prelude.{◌≡◌};
ghost use Rattle.equals.specs.Same.{same};

// Whether two byte strings are equal. All bytes are read, without an early exit, so that the back end can take sixteen at a time.
pub fn same(a: &[u8], b: &[u8]) -> bool
    ensures { result ≡ same a.now b.now }
{
    if a.len() != b.len() {
        return false;
    }
    let mut alike = true;
    for i in 0..a.len() {
        if a[i] != b[i] {
            alike = false;
        }
    }
    alike
}
