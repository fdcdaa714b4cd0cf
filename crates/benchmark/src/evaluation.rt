// Evaluation: rule files of growing size, at both truth forms and over one level or five.
use crate::timing::Timing;
use evaluate::grid::Grid;
use evaluate::indexed::Indexed;
use evaluate::strata::Strata;
use rules::opened::Rules;
use rules::opening::open;
use std::alloc::{AllocError, Global};
use std::io;
use truth::form::TruthForm;
use truth::three::Three;
use truth::wide::Wide;
use worked::words::add;

const VALUES: usize = 3392;

const TURNS: u16 = 20;

// 8 fluents, one role with 2 moves, and so many further atoms in so many strata. Each has 4 rules with 3 literals each: a fluent, the
// atom before it in its stratum, and a fluent negated.
fn layered(heap: Global, further: u16, strata: u16) -> Result<Vec<u8>, AllocError> {
    let mut bytes = Vec::new(heap);
    let atoms = further.saturating_add(21);
    add(
        &mut bytes,
        &[
            1,
            8,
            1,
            atoms,
            further.saturating_mul(4),
            further.saturating_mul(12),
            2,
        ],
    )?;
    for _ in 0..8 {
        add(&mut bytes, &[0, 2, 0])?;
    }
    for _ in 0..8 {
        add(&mut bytes, &[1, 1, 0])?;
    }
    add(&mut bytes, &[0, 1, 0, 0, 1, 0, 1, 0, 0, 1, 0, 0, 1, 0, 0])?;
    for i in 0..further {
        add(
            &mut bytes,
            &[
                1u16.saturating_add(i % strata.max(1)),
                0,
                i.saturating_mul(4).saturating_add(1),
            ],
        )?;
    }
    add_rules(&mut bytes, further)?;
    add_literals(&mut bytes, further, strata)?;
    Ok(bytes)
}

fn add_rules(bytes: &mut Vec<u8>, further: u16) -> Result<(), AllocError> {
    for r in 0..further.saturating_mul(4) {
        let next = if r % 4 == 3 { 0 } else { r.saturating_add(2) };
        add(bytes, &[next, r.saturating_mul(3).saturating_add(1)])?;
    }
    Ok(())
}

fn add_literals(bytes: &mut Vec<u8>, further: u16, strata: u16) -> Result<(), AllocError> {
    for r in 0..further.saturating_mul(4) {
        let i = r / 4;
        let from = r.saturating_mul(3);
        let before = if i >= strata {
            i.saturating_sub(strata).saturating_add(22)
        } else {
            1
        };
        add(
            bytes,
            &[1u16.saturating_add(r % 8), 0, from.saturating_add(2)],
        )?;
        add(bytes, &[before, 0, from.saturating_add(3)])?;
        add(bytes, &[1u16.saturating_add(i % 8), 1, 0])?;
    }
    Ok(())
}

// Microseconds for one evaluation of the levels 0 to `horizon`, all inputs open.
fn time<T: TruthForm + Drop>(
    rt: &HostRuntime,
    rules: Indexed<'_>,
    values: &mut [T],
    horizon: usize,
) -> io::Result<u128> {
    let timing = Timing::of(rt, TURNS, || {
        let roomy = values.len() >= VALUES && horizon < 5;
        if roomy {
            let mut grid = Grid {
                values: &mut *values,
            };
            grid.play(rules, horizon);
        }
        roomy
    })?;
    Ok(timing.micros)
}

fn line(rt: &HostRuntime, rules: &Rules, strata: u16) -> io::Result<()> {
    let heap = rt.alloc();
    let index = Strata::of(heap, rules)?;
    let indexed = Indexed {
        rules,
        strata: &index,
    };
    let mut three = vec![in heap; Three::Open; VALUES]?;
    let mut wide = vec![in heap; Wide::open(); VALUES]?;
    let one = time::<Three>(rt, indexed, three.as_mut_slice(), 0)?;
    let five = time::<Three>(rt, indexed, three.as_mut_slice(), 4)?;
    let wide_one = time::<Wide>(rt, indexed, wide.as_mut_slice(), 0)?;
    let atoms = rules.layout().atoms;
    let literals = rules.layout().literals;
    eprintln!(rt;
        "evaluate, {atoms} atoms in {strata} strata, {literals} literals: {one} microseconds a level, {five} for five levels; 64 worlds at once: {wide_one} a level"
    )
}

pub fn run(rt: &HostRuntime) -> io::Result<()> {
    for (further, strata) in [
        (60, 30),
        (120, 30),
        (240, 30),
        (480, 30),
        (480, 10),
        (480, 3),
        (120, 1),
        (240, 1),
        (480, 1),
    ] {
        let bytes = layered(rt.alloc(), further, strata)?;
        match open(rt.alloc(), bytes.as_slice()) {
            Ok(rules) => line(rt, &rules, strata)?,
            Err(_) => eprintln!(rt;
                "the file made for {further} atoms in {strata} strata is refused"
            )?,
        }
    }
    Ok(())
}
