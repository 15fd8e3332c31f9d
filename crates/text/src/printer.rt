// Text that is printed: each function puts its text behind what stands there.
ghost use Rattle.std.specs.Prelude.{◌≡◌, ◌+◌, ◌*◌, ◌≤◌, ◌∷◌, [], ◌++◌, length};
ghost use Rattle.text.specs.Numbers.{decimal};
ghost use Rattle.text.specs.Printed.{field, listed, fields_text, fields_of, room_of};

use crate::Text;
use itoa::Buffer;

// A number is printed by `itoa`, and not by `write!`: what the library promises of `write!` holds only where it answers `Ok`, and that
// it does is promised nowhere, so that printing, which cannot fail, could.
impl<const N: usize> Text<N> {
    pub fn push(&mut self, byte: u8)
        requires { length self.old + 1 ≤ N }
        ensures { self.new ≡ self.old ++ byte ∷ [] }
    {
        self.bytes[self.length] = byte;
        self.length += 1;
    }

    pub fn print(&mut self, text: &[u8])
        requires { length self.old + length text.now ≤ N }
        ensures { self.new ≡ self.old ++ text.now }
    {
        let end = self.length + text.len();
        // A slice first: no part with a start is lent of an array of N places.
        let bytes = &mut self.bytes[..];
        bytes[self.length..end].copy_from_slice(text);
        self.length = end;
    }

    // The digits of n, the most significant first.
    fn print_number(&mut self, n: u64)
        requires { length self.old + length (decimal n) ≤ N }
        ensures { self.new ≡ self.old ++ decimal n }
    {
        let mut buffer = Buffer::new();
        let digits = buffer.format(n).as_bytes();
        self.print(digits);
    }

    // A text and a number after it. A number has at most 20 digits.
    pub fn print_field(&mut self, text: &[u8], n: u64)
        requires { length self.old + length text.now + 20 ≤ N }
        ensures printed { self.new ≡ self.old ++ field text.now n }
        ensures upper_bound { length self.new ≤ length self.old + length text.now + 20 }
    {
        self.print(text);
        self.print_number(n);
    }

    // Numbers, each after a text, and a line feed.
    pub fn print_fields(&mut self, fields: &[(&[u8], u64)])
        requires { length self.old + room_of (fields_of fields.now) ≤ N }
        ensures { self.new ≡ self.old ++ fields_text (fields_of fields.now) }
    {
        for (text, n) in fields {
            self.print_field(text, *n);
        }
        self.push(b'\n');
    }

    // The numbers of a list, each after a space.
    pub fn print_list(&mut self, list: &[u32])
        requires { length self.old + 21 * length list.now ≤ N }
        ensures printed { self.new ≡ self.old ++ listed list.now }
        ensures upper_bound { length self.new ≤ length self.old + 21 * length list.now }
    {
        for n in list {
            self.print_field(b" ", u64::from(*n));
        }
    }
}
