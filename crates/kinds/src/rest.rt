// A line behind its indent, from which the rules read.
ghost use Rattle.std.specs.Prelude.{◌+◌, ◌^◌, ◌<◌, length};

// How far the line is indented, and its bytes from there on.
#[derive(Clone, Copy)]
pub struct Rest<'a> {
    pub indent: usize,
    pub bytes: &'a [u8],
    ghost fits: { indent + length bytes.now < 2 ^ 63 },
}
