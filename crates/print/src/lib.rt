// Printing for the programs: bytes and numbers, held in a lent buffer and written to standard output as it gets full.
#![tactic(auto)]

ghost use Rattle.std.specs.Prelude.{◌≡◌, ◌+◌, ◌≤◌, ◌++◌, length, take, map};
ghost use Rattle.print.specs.Held.{none_held, after_piece, after_put, after_number, after_numbers};

use itoa::Integer;
use std::io;
use std::marker::Model;

// How many bytes are put at a time, at most.
const PIECE: usize = 64;

// What a program prints: the first `len` bytes of `held` are not yet written. It cannot be dropped, so each program ends it with `finish`.
pub struct Out<'a, P> {
    to: &'a P,
    held: &'a mut [u8],
    len: usize,
}

// A contract sees the bytes that are held, and how many the buffer has room for.
impl<'a, P> Model for Out<'a, P> {
    ghost use Rattle.std.specs.Prelude.{◌≤◌, length, take};
    ghost use Rattle.print.specs.Held.{Held};

    ghost Value = { Held };

    ghost view = { λ o. record { bytes = take o.len o.held.now; room = length o.held.now } };

    ghost invariant = { λ o. o.len ≤ length o.held.now };
}

// Puts a piece behind the first `at` bytes.
fn place(held: &mut [u8], at: usize, piece: &[u8])
    requires { at + length piece.now ≤ length held.old }
    ensures { take (at + length piece.now) held.new ≡ take at held.old ++ piece.now }
{
    held[at..at + piece.len()].copy_from_slice(piece);
}

impl<'a, P: Print> Out<'a, P> {
    // Holds what is printed in `held`, which tells how often it is written.
    pub fn new(to: &'a P, held: &'a mut [u8]) -> Self
        ensures { result ≡ none_held (length held.old) }
    {
        Out { to, held, len: 0 }
    }

    // Writes what is held, and keeps it.
    fn write_held(&self) -> io::Result<()> {
        self.to.write_all(&self.held[..self.len])
    }

    // Puts a piece: what is held is written first where fewer than 64 bytes are free. In a buffer of fewer bytes a piece that has no room
    // is written at once.
    fn put_piece(&mut self, piece: &[u8])
        requires { length piece.now ≤ 64 }
        ensures { self.new ≡ after_piece self.old piece.now }
    {
        if self.held.len() - self.len < PIECE {
            let _ = self.write_held();
            self.len = 0;
            if self.held.len() < piece.len() {
                let _ = self.to.write_all(piece);
                return;
            }
        }
        place(self.held, self.len, piece);
        self.len += piece.len();
    }

    // Bytes. What cannot be written here is lost, so a program learns of it only by the last write, which `finish` makes.
    pub fn put(&mut self, s: &[u8])
        ensures { self.new ≡ after_put self.old s.now }
    {
        let mut rest = s;
        while PIECE < rest.len() {
            let (piece, more) = rest.split_at(PIECE);
            self.put_piece(piece);
            rest = more;
        }
        self.put_piece(rest);
    }

    // A number in decimal.
    pub fn decimal<I: Integer>(&mut self, x: I)
        ensures { self.new ≡ after_put self.old (I.text x) }
    {
        let mut digits = itoa::Buffer::new();
        self.put_piece(digits.format(x).as_bytes());
    }

    // A number and a space.
    pub fn number<I: Integer>(&mut self, x: I)
        ensures { self.new ≡ after_number self.old (I.text x) }
    {
        self.decimal(x);
        self.put(b" ");
    }

    // A number and a space for each of them.
    pub fn numbers<I: Integer>(&mut self, xs: &[I])
        ensures { self.new ≡ after_numbers self.old (map I.text xs.now) }
    {
        for x in xs {
            self.number(*x);
        }
    }

    // Writes what is held.
    pub fn finish(self) -> io::Result<()> {
        let Out { to, held, len } = self;
        to.write_all(&held[..len])
    }
}
