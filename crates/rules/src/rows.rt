ghost use Rattle.std.specs.Prelude.{◌≡◌, ◌+◌, ◌*◌, ◌<◌, ◌≤◌, length};
ghost use Rattle.rules.specs.Words.{word as word_at};

use crate::file::File;
use crate::places::Placed;
use crate::words::word_from;
use std::marker::PhantomData;

// A record of a file, by its number.
#[derive(Drop)]
pub struct Row<'a, R: Placed> {
    pub file: File<'a>,
    pub number: u16,
    of: PhantomData<R>,
    ghost above: { 0 < number },
    ghost within: { number ≤ R.count file.layout },
}

impl<'a> File<'a> {
    pub fn row<R: Placed>(self, number: u16) -> Row<'a, R>
        requires above { 0 < number }
        requires within { number ≤ R.count self.layout }
        ensures file { result.file ≡ self.entry }
        ensures number { result.number ≡ number }
    {
        Row {
            file: self,
            number,
            of: PhantomData,
        }
    }
}

impl<R: Placed> Row<'_, R> {
    // Where word i of the record stands, in bytes.
    pub fn at(&self, i: usize) -> usize
        requires { i < R.WORDS }
        ensures place { result ≡ 2 * R.place self.now.file.layout self.now.number i }
        ensures inside { result + 1 < length self.now.file.bytes.now }
    {
        2 * (R::start(self.file.layout) + R::WORDS * (usize::from(self.number) - 1) + i)
    }

    // Word i of the record.
    pub fn word(&self, i: usize) -> u16
        requires { i < R.WORDS }
        ensures { result ≡ word_at self.now.file.bytes.now (R.place self.now.file.layout self.now.number i) }
    {
        word_from(self.file.bytes, self.at(i))
    }
}
