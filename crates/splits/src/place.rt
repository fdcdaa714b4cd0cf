ghost use Rattle.std.specs.Prelude.{◌≡◌, ◌+◌, ◌*◌, ◌≤◌, length};
ghost use Rattle.rules.specs.Words.{word_from as word};

use rules::words::word_from;

// A record of a split file: record `i`, counted from 0.
#[derive(Clone, Copy)]
pub struct Place<'a> {
    pub bytes: &'a [u8],
    pub i: usize,
    ghost within: { 8 * i + 8 ≤ length bytes.now },
}

// Its words. One reader with the word's index as a parameter would put numbers in the place of their names.
impl Place<'_> {
    pub(crate) fn kind(self) -> u16
        ensures { result ≡ word self.entry.bytes.now (8 * self.entry.i) }
    {
        word_from(self.bytes, 8 * self.i)
    }

    pub(crate) fn number(self) -> u16
        ensures { result ≡ word self.entry.bytes.now (8 * self.entry.i + 2) }
    {
        word_from(self.bytes, 8 * self.i + 2)
    }

    pub(crate) fn level(self) -> u16
        ensures { result ≡ word self.entry.bytes.now (8 * self.entry.i + 4) }
    {
        word_from(self.bytes, 8 * self.i + 4)
    }

    pub(crate) fn next(self) -> u16
        ensures { result ≡ word self.entry.bytes.now (8 * self.entry.i + 6) }
    {
        word_from(self.bytes, 8 * self.i + 6)
    }
}
