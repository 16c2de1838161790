// The reader of a set as it goes through the bytes: where the machine is, and what is written into the lent words.
#![tactic(auto)]

ghost use Rattle.std.specs.Prelude.{◌*◌, ◌≤◌, length};

#[derive(Drop)]
pub struct Reader<'a> {
    pub elements: &'a mut [u64],
    pub pieces: &'a mut [u64],
    // the machine's state, where what it is in began, and the byte then read
    pub state: usize,
    pub from: usize,
    pub at: usize,
    // how many elements and pieces are written
    pub count: usize,
    pub parts: usize,
    ghost elements_fit: { count * 5 ≤ length elements.now },
    ghost pieces_fit: { parts * 2 ≤ length pieces.now },
}
