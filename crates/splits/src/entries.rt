ghost use Rattle.std.specs.Prelude.{◌≡◌, ◌+◌, ◌^◌, ◌<◌, nat_le};
ghost use Rattle.splits.specs.Inputs.{entries, first_input, branch_count, IsChoice, choice_entry};
ghost use Rattle.splits.specs.Records.{IsRecord, split_input, split_record};
ghost use Rattle.splits.specs.Shapes.{inputs};

use crate::cases::Case;
use crate::records::Record;
use crate::shape::Shape;
use play::part::Part;

impl Shape<'_> {
    pub fn entries(self) -> usize
        ensures { result ≡ entries (inputs self.entry) }
    {
        self.fluents + self.moves.len() * self.horizon
    }

    // The entry of the first input in the plain order. The fluents are no inputs of a base.
    pub fn first_input(self) -> usize
        ensures { result ≡ first_input (inputs self.entry) }
    {
        match self.part {
            Part::Base => self.fluents,
            Part::Step => 0,
        }
    }

    // How many branches the input at an entry has.
    pub fn branches(self, input: usize) -> u8
        ensures { result ≡ branch_count (inputs self.entry) input }
    {
        if input < self.fluents {
            2
        } else {
            self.moves[(input - self.fluents) % self.moves.len()]
        }
    }

    // Whether a case's branch is the last one of its input.
    pub(crate) fn is_last(self, case: Case) -> bool
        requires { case.branch + 1 < 2 ^ 16 }
        ensures { result ≡ nat_le (branch_count (inputs self.entry) case.input) (case.branch + 1) }
    {
        case.branch + 1 >= u16::from(self.branches(case.input))
    }

    // The entry of a role's choice at a level.
    pub fn choice(self, role: u16, level: u16) -> usize
        requires { IsChoice (inputs self) role level }
        ensures { result ≡ choice_entry (inputs self.entry) role level }
    {
        self.fluents + (usize::from(level) * self.moves.len() + (usize::from(role) - 1))
    }

    // The entry of the input that a record splits, if it splits one.
    pub fn input(self, read: Record) -> Option<usize>
        requires { IsRecord (inputs self) read }
        ensures { result ≡ split_input (inputs self.entry) read }
    {
        match read {
            Record::Close => None,
            Record::Fluent(number) => Some(usize::from(number) - 1),
            Record::Choice(role, level) => Some(self.choice(role, level)),
        }
    }

    // The record that splits the input at an entry.
    pub fn split_record(self, input: usize) -> Record
        requires { input < entries (inputs self) }
        ensures { result ≡ split_record (inputs self.entry) input }
    {
        if input < self.fluents {
            return Record::Fluent(input as u16 + 1);
        }
        let choice = input - self.fluents;
        let role = choice % self.moves.len() + 1;
        let level = choice / self.moves.len();
        Record::Choice(role as u16, level as u16)
    }
}
