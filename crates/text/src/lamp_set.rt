// A set of lamps, and how it is printed.
ghost use Rattle.std.specs.Prelude.{◌≤◌, Some};
ghost use Rattle.lamps.specs.Lamps.{listed};
ghost use Rattle.bits.specs.Bits.{bit_of};
ghost use Rattle.lines.specs.Printed.{shown};

use std::fmt;

// Of the first `count` lamps, at most 64, those whose bit is set in the row: a value that a reply has in it, where crate calls lends a row to write its bytes.
#[derive(Clone, Copy, PartialEq, Eq, Debug)]
pub struct LampSet {
    pub count: u16,
    pub row: [u64; 1],
    ghost few: { count ≤ 64 },
}

// A digit for each lamp: 1 if it is in the set.
impl fmt::Display for LampSet {
    ghost output = { λ s. Some (shown (listed s.count (bit_of s.row))) };

    fn fmt<W: fmt::Write>(&self, f: &mut fmt::Formatter<W>) -> fmt::Result {
        let mut digits = [b'0'; 64];
        for i in 0..self.count {
            digits[i as usize] = b'0' + u8::from(bits::get(&self.row, i));
        }
        f.write_str(str::from_utf8(&digits[..self.count as usize]).unwrap())
    }
}
