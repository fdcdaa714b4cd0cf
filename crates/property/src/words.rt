ghost use Rattle.std.specs.Prelude.{◌≡◌, ◌*◌, ◌<◌};
ghost use Rattle.std.specs.Result.{result_map_both};
ghost use Rattle.rules.specs.First.{verdict};
ghost use Rattle.rules.specs.Words.{word as word_at};
ghost use Rattle.property.specs.declared.faults.Fault.TheVariants.{Word};
ghost use Rattle.property.specs.Words.{record_word, count_in};
ghost use Rattle.property.specs.First.{wrong_length};

use crate::faults::Fault;
use crate::text::{Entry, Text};
use rules::words::word;

// The text of a file, if its length is that of 1 to 64 records.
impl<'a> TryFrom<&'a [u8]> for Text<'a> {
    type Error = Fault;

    ghost try_from_gives = { λ bytes r. result_map_both (λ t. t.bytes.now) (λ fault. fault) r ≡ verdict (wrong_length bytes.now) bytes.now };

    fn try_from(bytes: &'a [u8]) -> Result<Self, Fault> {
        let length = bytes.len();
        if length < 6 || length > 384 || length % 6 != 0 {
            return Err(Fault::Length(length));
        }
        Ok(Text { bytes })
    }
}

impl Text<'_> {
    // How many records there are.
    pub fn count(self) -> u16
        ensures { result ≡ count_in self.entry.bytes.now }
    {
        (self.bytes.len() / 6) as u16
    }
}

impl Entry<'_> {
    // Where word i of the record stands, in words.
    fn word_at(self, i: usize) -> usize
        requires { i < 3 }
        ensures { result ≡ record_word self.entry.number i }
    {
        3 * (usize::from(self.number) - 1) + i
    }

    // Word i of the record: its kind, its value, its next. They go by index, since a fault names the place of one.
    pub fn word(self, i: usize) -> u16
        requires { i < 3 }
        ensures { result ≡ word_at self.entry.text.bytes.now (record_word self.entry.number i) }
    {
        word(self.text.bytes, self.word_at(i))
    }

    // That word i of the record breaks its rule.
    pub fn fault(self, i: usize) -> Fault
        requires { i < 3 }
        ensures { result ≡ Word (2 * record_word self.entry.number i) }
    {
        Fault::Word(2 * self.word_at(i))
    }
}
