ghost use Rattle.std.specs.Prelude.{◌≡◌, ◌*◌, ◌<◌, ◌≤◌, length};

// Up to 64 plays of 96 bytes each, one behind the other. The bytes may be longer than the plays that are meant.
// They are one list, as faults and statements speak of them, and no slice of arrays.
#[derive(Clone, Copy)]
pub struct Plays<'a> {
    pub bytes: &'a [u8],
    pub count: usize,
    ghost few: { count ≤ 64 },
    ghost long: { 96 * count ≤ length bytes.now },
}
