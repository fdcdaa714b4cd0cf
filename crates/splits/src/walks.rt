ghost use Rattle.std.specs.Prelude.{◌≡◌, ◌+◌, ◌*◌, ◌/◌, ◌≤◌, true, length, is_ok, if◌then◌else◌, nat_lt};
ghost use Rattle.splits.specs.Inputs.{entries};
ghost use Rattle.splits.specs.Shapes.{inputs};
ghost use Rattle.splits.specs.Walk.{walked, next_checked, then_on};
ghost use Rattle.splits.specs.declared.faults.WalkFault.TheVariants.{LeftOver};

use crate::cases::Case;
use crate::faults::WalkFault;
use crate::judge::Judge;
use crate::place::Place;
use crate::shape::Shape;
use crate::situation::Situation;
use crate::stack::Stack;

// The subtree of a record has ended before record `end`, and its next is to say so.
fn check_next(place: Place, end: usize, last: bool) -> Result<(), WalkFault>
    requires { 8 * end ≤ length place.bytes.now }
    ensures { result ≡ next_checked place.entry.bytes.now place.entry.i end last }
{
    let next = usize::from(place.next());
    let right = if last { 0 } else { end + 1 };
    if next == right {
        Ok(())
    } else {
        Err(WalkFault::Next(8 * place.i + 6))
    }
}

// The root's subtree has ended before record `end`: no record may be left over.
fn check_root(place: Place, end: usize) -> Result<(), WalkFault>
    requires { 8 * end ≤ length place.bytes.now }
    ensures { result ≡ then_on (next_checked place.entry.bytes.now place.entry.i end true) (λ _. (if nat_lt end (length place.entry.bytes.now / 8) then Err (LeftOver (8 * end)) else Ok tt)) }
{
    check_next(place, end, true)?;
    if end < place.bytes.len() / 8 {
        return Err(WalkFault::LeftOver(8 * end));
    }
    Ok(())
}

// Walks a split file in the case that the settings are: the first fault in walk order, or none, and then the settings are as they were.
pub fn walk<J: Judge>(
    bytes: &[u8],
    shape: Shape,
    settings: &mut [u8],
    cases: &mut [Case],
    judge: &mut J,
) -> Result<(), WalkFault>
    requires room { entries (inputs shape) ≤ length settings.old }
    requires stack { entries (inputs shape) ≤ length cases.old }
    ensures answer { result ≡ walked (J.closed judge.old) (inputs shape.entry) bytes.now settings.old }
    ensures same { J.closed judge.new ≡ J.closed judge.old }
    ensures again { is_ok result ≡ true → settings.new ≡ settings.old }
{
    if bytes.len() < 8 || bytes.len() > 524_280 || bytes.len() % 8 != 0 {
        return Err(WalkFault::Length(bytes.len()));
    }
    let records = bytes.len() / 8;
    // A loop with its state: a walk goes back into an outer split as often as it goes on, so no range or chain has its steps.
    let mut splits = Stack::new(cases);
    let mut at: usize = 0;
    // the record whose subtree has just ended
    let mut over: Option<usize> = None;
    loop {
        match over {
            None => {
                if at >= records {
                    return Err(WalkFault::PastEnd(bytes.len()));
                }
                let situation = Situation { shape, settings };
                let split = situation.read_input(Place { bytes, i: at })?;
                if let Some(input) = split {
                    splits.enter(Case::first(at, input), settings);
                } else if judge.is_closed(settings) {
                    over = Some(at);
                } else {
                    return Err(WalkFault::NotClosed(8 * at));
                }
                at += 1;
            }
            Some(i) => {
                let Some(top) = splits.pop() else {
                    return check_root(Place { bytes, i }, at);
                };
                let last = shape.is_last(top);
                check_next(Place { bytes, i }, at, last)?;
                over = splits.turn(top, last, settings);
            }
        }
    }
}
