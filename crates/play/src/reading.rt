ghost use Rattle.std.specs.Prelude.{◌≡◌, ◌+◌, ◌*◌, ◌/◌, ◌<◌, ◌≤◌, length, slice_index};
ghost use Rattle.rules.specs.First.{verdict};
ghost use Rattle.play.specs.Bytes.{first_fault};
ghost use Rattle.play.specs.Plays.{contents};

use crate::bytes::check;
use crate::faults::Fault;
use crate::part::Part;
use crate::plays::Plays;
use rules::opened::Rules;

impl<'a> Plays<'a> {
    // The plays that the bytes are, or their first fault.
    pub fn read(rules: &Rules, part: Part, levels: u16, bytes: &'a [u8]) -> Result<Plays<'a>, Fault>
        ensures { contents result ≡ verdict (first_fault rules.now part levels bytes.now) (bytes.now, length bytes.now / 96) }
    {
        let count = check(rules, part, levels, bytes)?;
        Ok(Plays { bytes, count })
    }
}

impl Plays<'_> {
    // How many plays there are.
    pub fn count(self) -> usize
        ensures value { result ≡ self.entry.count }
        ensures few { result ≤ 64 }
    {
        self.count
    }

    // Byte i of play k, both counted from 0.
    pub fn byte(self, k: usize, i: usize) -> u8
        requires play { k < self.count }
        requires inside { i < 96 }
        ensures { result ≡ slice_index self.entry.bytes.now (96 * k + i) }
    {
        self.bytes[96 * k + i]
    }
}
