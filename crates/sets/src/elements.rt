// The first elements of lent words, which have room for them.
#![tactic(auto)]

ghost use Rattle.std.specs.Prelude.{◌*◌, ◌≤◌, length};

#[derive(Clone, Copy)]
pub struct Elements<'a> {
    pub words: &'a [u64],
    pub count: usize,
    ghost fit: { count * 5 ≤ length words.now },
}
