ghost use Rattle.std.specs.Prelude.{◌≡◌, length};
ghost use Rattle.rules.specs.First.{verdict};
ghost use Rattle.docket.specs.Memories.{report_of, short_memory, short_memory_or_buffer};

use rules::faults::Report;

// The least sizes of the memories that a caller lends: settings and play buffer in bytes, values and case records by number.
pub const SETTINGS: usize = 96;

pub const VALUES: usize = 3392;

pub const CASES: usize = 97;

pub const BUFFER: usize = 96;

// A lent memory that is too short.
#[derive(Clone, Copy, PartialEq, Eq, Debug)]
pub enum Shortage {
    Settings,
    Values,
    Cases,
    Buffer,
}

impl Shortage {
    pub fn report(self) -> Report
        ensures { result ≡ report_of self }
    {
        let place = match self {
            Shortage::Settings => 1,
            Shortage::Values => 2,
            Shortage::Cases => 3,
            Shortage::Buffer => 4,
        };
        Report {
            number: 10,
            layer: 2,
            place,
        }
    }
}

// How long lent memories are: settings in bytes, values and case records by number.
#[derive(Clone, Copy, PartialEq, Eq, Debug)]
pub struct Lengths {
    pub settings: usize,
    pub values: usize,
    pub cases: usize,
}

impl Lengths {
    // Whether they suffice; or the first memory that is too short.
    pub fn check(self) -> Result<(), Shortage>
        ensures { result ≡ verdict (short_memory self.settings self.values self.cases) tt }
    {
        if self.settings < SETTINGS {
            return Err(Shortage::Settings);
        }
        if self.values < VALUES {
            return Err(Shortage::Values);
        }
        if self.cases < CASES {
            return Err(Shortage::Cases);
        }
        Ok(())
    }

    // The same with a play buffer of so many bytes.
    pub fn check_with_buffer(self, buffer: usize) -> Result<(), Shortage>
        ensures { result ≡ verdict (short_memory_or_buffer self.settings self.values self.cases buffer) tt }
    {
        self.check()?;
        if buffer < BUFFER {
            return Err(Shortage::Buffer);
        }
        Ok(())
    }
}
