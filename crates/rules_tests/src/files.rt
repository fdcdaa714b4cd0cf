// Plain rule files of any size, and words put into one.
use rules::checks::check;
use std::alloc::{AllocError, Global};
use worked::words::bytes_of;

// Writes a word at an offset.
pub fn put(bytes: &mut Vec<u8>, place: usize, word: u16) {
    for (byte, new) in bytes.iter_mut().skip(place).zip(word.to_be_bytes()) {
        *byte = new;
    }
}

// The number and place of the fault, if there is one.
pub fn answer(bytes: &[u8]) -> Option<(u8, usize)> {
    let report = check(bytes).err()?.report();
    Some((report.number, report.place))
}

// How many of each there are, and how many moves each role has.
#[derive(Clone, Copy)]
pub struct Size {
    pub fluents: u16,
    pub roles: u16,
    pub moves: u16,
    pub atoms: u16,
    pub rules: u16,
    pub literals: u16,
}

pub const SMALL: Size = Size {
    fluents: 1,
    roles: 1,
    moves: 1,
    atoms: 5,
    rules: 0,
    literals: 0,
};

impl Size {
    // A file of this size in which each atom has the words of its kind, and rules and literals are plain and linked to nothing.
    pub fn file(self, heap: Global) -> Result<Vec<u8>, AllocError> {
        let mut bytes = bytes_of(
            heap,
            &[
                1,
                self.fluents,
                self.roles,
                self.atoms,
                self.rules,
                self.literals,
            ],
        )?;
        for _ in 0..self.roles {
            bytes.extend_from_slice(&self.moves.to_be_bytes())?;
        }
        self.add_atoms(heap, &mut bytes)?;
        for _ in 0..self.rules {
            bytes.extend_from_slice(&[0, 0, 0, 0])?;
        }
        for _ in 0..self.literals {
            bytes.extend_from_slice(&[0, 1, 0, 0, 0, 0])?;
        }
        Ok(bytes)
    }

    fn add_atoms(self, heap: Global, bytes: &mut Vec<u8>) -> Result<(), AllocError> {
        let fluents = usize::from(self.fluents);
        let moves = usize::from(self.roles) * usize::from(self.moves);
        for i in 0..usize::from(self.atoms) {
            let words = if i < fluents {
                [0, 0, 0]
            } else if i < 2 * fluents {
                [1, 1, 0]
            } else if i < (2 * fluents).saturating_add(moves) {
                [0, 1, 0]
            } else {
                [1, 0, 0]
            };
            let atom = bytes_of(heap, &words)?;
            bytes.extend_from_slice(atom.as_slice())?;
        }
        Ok(())
    }
}
