ghost use Rattle.std.specs.Prelude.{◌≡◌, ◌%◌, ◌<◌, ◌≤◌, length};
ghost use Rattle.property.specs.Words.{count_in};

// The bytes of a property file of a right length.
#[derive(Clone, Copy)]
pub struct Text<'a> {
    pub bytes: &'a [u8],
    ghost some: { 6 ≤ length bytes.now },
    ghost few: { length bytes.now ≤ 384 },
    ghost whole: { length bytes.now % 6 ≡ 0 },
}

// A record of a text, by its number.
#[derive(Clone, Copy)]
pub struct Entry<'a> {
    pub text: Text<'a>,
    pub number: u16,
    ghost above: { 0 < number },
    ghost within: { number ≤ count_in text.bytes.now },
}
