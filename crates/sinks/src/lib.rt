// Where bytes go piece by piece: into a lent buffer, or into their number alone, so that what is written is measured by the same code.
#![tactic(auto)]

ghost use Rattle.std.specs.Prelude.{◌≡◌, List, ℕ, ◌+◌, ◌≤◌, length};
ghost use Rattle.std.proofs.lemmas.List.Edits.{sets};
ghost use Rattle.sinks.specs.Laws.{SinkLaws};
ghost use Rattle.sinks.specs.Sinks.{fills, has_filled, fill_laws, counts, has_counted, count_laws};

pub trait Sink {
    // so many bytes more may be put
    ghost fits: { Self → ℕ → Type 0 };

    // the sink before, what was put, the sink after
    ghost took: { Self → List ℕ → Self → Type 0 };

    fn put(&mut self, s: &[u8])
        requires { fits self.old (length s.now) }
        ensures { took self.old s.now self.new };

    // What is put later stands behind what was put before.
    ghost laws: { SinkLaws fits took };
}

// Bytes to a place of a buffer, one by one: `copy_from_slice` would make the archives ask for `memcpy` and `memmove`.
fn copy(out: &mut [u8], at: usize, s: &[u8])
    requires { at + length s.now ≤ length out.old }
    ensures { out.new ≡ sets out.old at s.now }
{
    for (k, b) in s.iter().enumerate() {
        out[at + k] = *b;
    }
}

// A lent buffer, and the place of the next byte.
#[derive(Drop)]
pub struct Fill<'a> {
    pub out: &'a mut [u8],
    pub at: usize,
}

impl Sink for Fill<'_> {
    ghost fits = { fills };

    ghost took = { has_filled };

    ghost laws = { fill_laws };

    fn put(&mut self, s: &[u8]) {
        copy(self.out, self.at, s);
        self.at += s.len();
    }
}

// How many bytes were put.
#[derive(Clone, Copy, Debug, PartialEq, Eq)]
pub struct Count {
    pub bytes: usize,
}

impl Sink for Count {
    ghost fits = { counts };

    ghost took = { has_counted };

    ghost laws = { count_laws };

    fn put(&mut self, s: &[u8]) {
        self.bytes += s.len();
    }
}
