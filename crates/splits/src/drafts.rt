ghost use Rattle.std.specs.Prelude.{◌≡◌, ℕ, ◌+◌, ◌*◌, ◌/◌, ◌<◌, ◌≤◌, true, length, replicate, is_ok, if◌then◌else◌, nat_lt};
ghost use Rattle.splits.specs.Inputs.{entries};
ghost use Rattle.splits.specs.Plain.{drawn, put, places, drafted, area_after, settings_after, Unsettled};
ghost use Rattle.splits.specs.Records.{kind_of, number_of, level_of};
ghost use Rattle.splits.specs.Shapes.{inputs};

use crate::cases::Case;
use crate::drafted::{Drafted, TooSmall};
use crate::judge::Judge;
use crate::records::Record;
use crate::shape::Shape;
use crate::stack::Stack;

fn put_word(area: &mut [u8], at: usize, w: u16)
    requires { at + 1 < length area.old }
    ensures { area.new ≡ put area.old at w }
{
    area[at..at + 2].copy_from_slice(&w.to_be_bytes());
}

fn room_of(area: &[u8]) -> usize
    ensures { result ≡ places area.now }
{
    (area.len() / 8).min(65_535)
}

// The next of record `i`, whose subtree ended before record `end`. Where no record fits behind it, none is written, since no file will be.
fn link(area: &mut [u8], i: usize, end: usize, room: usize)
    requires within { i < end }
    requires room { (room ≤ length area.old / 8) × ((room ≤ 65535) × (end ≤ room)) }
    ensures { area.new ≡ (if nat_lt end room then put area.old (8 * i + 6) (end + 1) else area.old) }
{
    if end < room {
        put_word(area, 8 * i + 6, end as u16 + 1);
    }
}

// The words of a split, but for its next.
fn put_split(area: &mut [u8], at: usize, split: Record)
    requires { 8 * at + 8 ≤ length area.old }
    ensures { area.new ≡ put (put (put area.old (8 * at) (kind_of split)) (8 * at + 2) (number_of split)) (8 * at + 4) (level_of split) }
{
    put_word(area, 8 * at, split.kind());
    put_word(area, 8 * at + 2, split.number());
    put_word(area, 8 * at + 4, split.level());
}

// Writes the plain file of the case that the settings are, whose inputs are all open; or shows, in the settings, a settled case that is not closed.
// A closing record is zeros until its next is known.
pub fn draft<J: Judge>(
    shape: Shape,
    settings: &mut [u8],
    cases: &mut [Case],
    judge: &mut J,
    area: &mut [u8],
) -> Result<Drafted, TooSmall>
    requires room { entries (inputs shape) ≤ length settings.old }
    requires stack { entries (inputs shape) ≤ length cases.old }
    requires open { Unsettled (inputs shape) settings.old }
    ensures answer { result ≡ drafted (places area.old) (drawn (J.closed judge.old) (inputs shape.entry) settings.old) }
    ensures written { area.new ≡ area_after (inputs shape.entry) (length area.old) (places area.old) (drawn (J.closed judge.old) (inputs shape.entry) settings.old) }
    ensures shown { is_ok result ≡ true → settings.new ≡ settings_after settings.old (drawn (J.closed judge.old) (inputs shape.entry) settings.old) }
    ensures same { J.closed judge.new ≡ J.closed judge.old }
{
    let room = room_of(area);
    area.fill(0);
    let first = shape.first_input();
    let end = shape.entries();
    let mut splits = Stack::new(cases);
    // A loop with its state, as in a walk: it goes back into an outer split as often as it goes on.
    let mut at: usize = 0;
    // the record whose subtree has just ended
    let mut over: Option<usize> = None;
    loop {
        match over {
            None => {
                let input = first + splits.len();
                let closed = judge.is_closed(settings);
                if !closed && input >= end {
                    area.fill(0);
                    return Ok(Drafted::Play);
                }
                if at >= room {
                    area.fill(0);
                    return Err(TooSmall {});
                }
                if closed {
                    over = Some(at);
                } else {
                    put_split(area, at, shape.split_record(input));
                    splits.enter(Case::first(at, input), settings);
                }
                at += 1;
            }
            Some(i) => {
                let Some(top) = splits.pop() else {
                    return Ok(Drafted::File(at));
                };
                let last = shape.is_last(top);
                if !last {
                    link(area, i, at, room);
                }
                over = splits.turn(top, last, settings);
            }
        }
    }
}
