ghost use Rattle.std.specs.Prelude.{◌≡◌, ◌≤◌, length};
ghost use Rattle.splits.specs.Inputs.{entries};
ghost use Rattle.splits.specs.Records.{closing, of_fluent, of_choice, record_at};
ghost use Rattle.splits.specs.Shapes.{inputs};
ghost use Rattle.splits.specs.Walk.{input_at};

use crate::place::Place;
use crate::records::{Record, RecordFault};
use crate::shape::Shape;
use play::part::Part;

// The case that a record is read in: the inputs of a part, and their settings.
#[derive(Clone, Copy)]
pub struct Situation<'a> {
    pub shape: Shape<'a>,
    pub settings: &'a [u8],
    ghost room: { entries (inputs shape) ≤ length settings.now },
}

impl Situation<'_> {
    // The record at a place, in this case. The file has a number for each kind.
    pub fn read(self, place: Place) -> Result<Record, RecordFault>
        ensures { result ≡ record_at (inputs self.entry.shape) place.entry.bytes.now self.entry.settings.now place.entry.i }
    {
        match (place.kind(), self.shape.part) {
            (0, _) => read_close(place),
            (1, Part::Step) => self.read_fluent(place),
            (2, _) => self.read_choice(place),
            _ => Err(RecordFault::Kind(8 * place.i)),
        }
    }

    // The entry of the input that a record splits, if it splits one.
    pub(crate) fn read_input(self, place: Place) -> Result<Option<usize>, RecordFault>
        ensures { result ≡ input_at (inputs self.entry.shape) place.entry.bytes.now self.entry.settings.now place.entry.i }
    {
        Ok(self.shape.input(self.read(place)?))
    }

    fn read_fluent(self, place: Place) -> Result<Record, RecordFault>
        ensures { result ≡ of_fluent (inputs self.entry.shape) place.entry.bytes.now self.entry.settings.now place.entry.i }
    {
        let number = place.number();
        let fluent = usize::from(number);
        if fluent == 0 || fluent > self.shape.fluents || self.settings[fluent - 1] != 0 {
            return Err(RecordFault::Number(8 * place.i + 2));
        }
        if place.level() != 0 {
            return Err(RecordFault::Level(8 * place.i + 4));
        }
        Ok(Record::Fluent(number))
    }

    fn read_choice(self, place: Place) -> Result<Record, RecordFault>
        ensures { result ≡ of_choice (inputs self.entry.shape) place.entry.bytes.now self.entry.settings.now place.entry.i }
    {
        let role = place.number();
        let level = place.level();
        if role == 0 || usize::from(role) > self.shape.moves.len() {
            return Err(RecordFault::Number(8 * place.i + 2));
        }
        if usize::from(level) >= self.shape.horizon {
            return Err(RecordFault::Level(8 * place.i + 4));
        }
        if self.settings[self.shape.choice(role, level)] != 0 {
            return Err(RecordFault::Number(8 * place.i + 2));
        }
        Ok(Record::Choice(role, level))
    }
}

fn read_close(place: Place) -> Result<Record, RecordFault>
    ensures { result ≡ closing place.entry.bytes.now place.entry.i }
{
    if place.number() != 0 {
        return Err(RecordFault::Number(8 * place.i + 2));
    }
    if place.level() != 0 {
        return Err(RecordFault::Level(8 * place.i + 4));
    }
    Ok(Record::Close)
}
