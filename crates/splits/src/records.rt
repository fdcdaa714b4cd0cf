ghost use Rattle.std.specs.Prelude.{◌≡◌};
ghost use Rattle.splits.specs.Records.{kind_of, number_of, level_of};

// A record of a split file: it closes its case, or splits it by an open fluent or by a role's open choice at a level.
#[derive(Clone, Copy, PartialEq, Eq, Debug)]
pub enum Record {
    Close,
    // the fluent's number
    Fluent(u16),
    // the role's number, and the level
    Choice(u16, u16),
}

// The words of a record, but for its next. The file has a number for each kind.
impl Record {
    pub fn kind(self) -> u16
        ensures { result ≡ kind_of self }
    {
        match self {
            Record::Close => 0,
            Record::Fluent(_) => 1,
            Record::Choice(_, _) => 2,
        }
    }

    pub fn number(self) -> u16
        ensures { result ≡ number_of self }
    {
        match self {
            Record::Close => 0,
            Record::Fluent(number) => number,
            Record::Choice(role, _) => role,
        }
    }

    pub fn level(self) -> u16
        ensures { result ≡ level_of self }
    {
        match self {
            Record::Close | Record::Fluent(_) => 0,
            Record::Choice(_, level) => level,
        }
    }
}

// Which word of a record breaks its rule, with the word's offset.
#[derive(Clone, Copy, PartialEq, Eq, Debug)]
pub enum RecordFault {
    Kind(usize),
    Number(usize),
    Level(usize),
}
