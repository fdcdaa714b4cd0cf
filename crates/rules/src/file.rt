ghost use Rattle.std.specs.Prelude.{◌≡◌, ◌*◌, ◌^◌, ◌<◌, length};
ghost use Rattle.rules.specs.Tables.{words_of};
ghost use Rattle.rules.specs.Linked.{Limited};

use crate::layout::Layout;

// The bytes of a file that is as long as its header says, with counts inside their limits; so no place in it is large.
#[derive(Clone, Copy)]
pub struct File<'a> {
    pub bytes: &'a [u8],
    pub layout: Layout,
    ghost sized: { length bytes.now ≡ 2 * words_of layout },
    ghost limited: { Limited layout },
    ghost small: { words_of layout < 2 ^ 32 },
}
