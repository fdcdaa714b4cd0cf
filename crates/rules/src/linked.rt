ghost use Rattle.rules.specs.Files.{held};
ghost use Rattle.rules.specs.Linked.{Linked};

use crate::file::File;

// A file whose records passed their own checks: its links stay within it and lead later.
#[derive(Clone, Copy)]
pub struct LinkedFile<'a> {
    pub file: File<'a>,
    ghost linked: { Linked file.layout (held file) },
}
