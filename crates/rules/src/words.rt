ghost use Rattle.std.specs.Prelude.{◌≡◌, ◌+◌, ◌*◌, ◌<◌, length};
ghost use Rattle.rules.specs.Words.{word as word_at, word_from as word_at_byte};

// The word at a byte's place, high byte first.
pub fn word_from(bytes: &[u8], at: usize) -> u16
    requires { at + 1 < length bytes.now }
    ensures { result ≡ word_at_byte bytes.now at }
{
    u16::from_be_bytes([bytes[at], bytes[at + 1]])
}

// Word i of the bytes.
pub fn word(bytes: &[u8], i: usize) -> u16
    requires { 2 * i + 1 < length bytes.now }
    ensures { result ≡ word_at bytes.now i }
{
    word_from(bytes, 2 * i)
}
