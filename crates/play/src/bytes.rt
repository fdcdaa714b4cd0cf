ghost use Rattle.std.specs.Prelude.{◌≡◌, ◌/◌, length};
ghost use Rattle.std.specs.List.{range_with_len};
ghost use Rattle.rules.specs.First.{verdict, first};
ghost use Rattle.play.specs.Bytes.{start_fits, byte_fits, byte_fault, first_fault};

use crate::faults::Fault;
use crate::part::Part;
use rules::opened::Rules;
use rules::records::Mark;

impl Part {
    // Whether a play for this part may start with this byte of a fluent with that mark.
    fn starts_with(self, mark: Mark, byte: u8) -> bool
        ensures { result ≡ start_fits self mark byte }
    {
        match (self, mark) {
            (Part::Base, Mark::Initial) => byte == 1,
            (Part::Base, Mark::Still | Mark::Dependent) => byte == 0,
            (Part::Step, _) => byte <= 1,
        }
    }
}

// What plays are checked for: a part over so many levels, by these rules.
#[derive(Clone, Copy)]
struct Format<'a> {
    rules: &'a Rules,
    part: Part,
    levels: u16,
}

impl Format<'_> {
    // Whether byte i of a play is what its place asks for.
    fn fits(self, i: usize, byte: u8) -> bool
        ensures { result ≡ byte_fits self.entry.rules.now self.entry.part self.entry.levels i byte }
    {
        let fluents = usize::from(self.rules.layout().fluents);
        let roles = usize::from(self.rules.layout().roles);
        if i < fluents {
            return self.part.starts_with(self.rules.atoms()[i].mark, byte);
        }
        if i < fluents + roles * usize::from(self.levels) {
            return byte >= 1 && u16::from(byte) <= self.rules.moves()[(i - fluents) % roles];
        }
        byte == 0
    }

    // The first byte of the plays that does not fit.
    fn check(self, bytes: &[u8]) -> Result<(), Fault>
        ensures { result ≡ verdict (first (byte_fault self.entry.rules.now self.entry.part self.entry.levels bytes.now) (range_with_len 0 (length bytes.now))) tt }
    {
        for (j, byte) in bytes.iter().enumerate() {
            if !self.fits(j % 96, *byte) {
                return Err(Fault::Byte(j));
            }
        }
        Ok(())
    }
}

// How many plays there are; or their first fault.
pub fn check(rules: &Rules, part: Part, levels: u16, bytes: &[u8]) -> Result<usize, Fault>
    ensures { result ≡ verdict (first_fault rules.now part levels bytes.now) (length bytes.now / 96) }
{
    let length = bytes.len();
    if length < 96 || length > 6144 || length % 96 != 0 {
        return Err(Fault::Length(length));
    }
    let format = Format {
        rules,
        part,
        levels,
    };
    format.check(bytes)?;
    Ok(length / 96)
}
