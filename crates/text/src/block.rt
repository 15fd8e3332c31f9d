// A text that is read into, of which the last request may be cut off.
ghost use Rattle.std.specs.Prelude.{◌≡◌, ◌≤◌, length};
ghost use Rattle.std.proofs.Math.Seq.{slice};
ghost use Rattle.text.specs.Blocks.{Grown};

use crate::Text;
use std::io::Read;

impl<const N: usize> Text<N> {
    // Reads once, to the places behind the bytes that stand there, and answers how many came. A read that fails counts as the end of the
    // input.
    pub fn read_more<R: Read>(&mut self, input: &mut R) -> usize
        ensures { Grown self.old self.new result }
    {
        // A slice first: no part with a start is lent of an array of N places.
        let bytes = &mut self.bytes[..];
        let count = input.read(&mut bytes[self.length..]).unwrap_or(0);
        self.length += count;
        count
    }

    // Keeps the bytes from place `from` up to, not including, place `to`: they move to the front.
    pub fn keep(&mut self, from: usize, to: usize)
        requires { (from ≤ to) × (to ≤ length self.old) }
        ensures { self.new ≡ slice from to self.old }
    {
        let bytes = &mut self.bytes[..];
        bytes.copy_within(from..to, 0);
        self.length = to - from;
    }
}
