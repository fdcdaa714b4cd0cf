// Lent memories one short, exact and longer; they are cleared whatever comes.
use crate::samples::{add_play, opened};
use docket::calls::trial;
use play::part::Part;
use splits::cases::Case;
use std::test::Fail;
use truth::form::TruthForm;
use truth::wide::Wide;
use worked::files::SECOND;
use worked::words::bytes_of;

// Settings, values and case records; then the number and place of the fault, if there is one.
const SIZES: [(usize, usize, usize, Option<(u8, usize)>); 6] = [
    (96, 3392, 97, None),
    (100, 3400, 100, None),
    (95, 3392, 97, Some((10, 1))),
    (96, 3391, 97, Some((10, 2))),
    (96, 3392, 96, Some((10, 3))),
    (0, 0, 0, Some((10, 1))),
];

#[test]
fn memories(rt: HostRuntime) -> Result<(), Fail> {
    let heap = rt.alloc();
    let docket = opened(heap, &SECOND)?;
    let property = bytes_of(heap, &[2, 2, 0, 3, 3, 0, 1, 1, 4, 1, 2, 0])?;
    let mut plays = Vec::new(heap);
    add_play(&mut plays, [1, 0, 2, 0, 0, 0, 0])?;
    for (bytes, count, records, expected) in SIZES {
        let mut settings = vec![in heap; 7; bytes]?;
        let mut values = vec![in heap; Wide::yes(); count]?;
        let mut cases = vec![in heap; Case {
            input: 1,
            branch: 2,
            number: 3
        }; records]?;
        let answer = match trial(
            &docket,
            Part::Step,
            property.as_slice(),
            plays.as_slice(),
            settings.as_mut_slice(),
            values.as_mut_slice(),
            cases.as_mut_slice(),
        ) {
            Ok(_) => None,
            Err(fault) => Some((fault.report().number, fault.report().place)),
        };
        assert_eq!(rt; answer, expected);
        for byte in settings.iter() {
            assert!(rt; *byte == 0);
        }
        for value in values.iter() {
            assert!(rt; value.may_be_yes() == 0);
        }
        for case in cases.iter() {
            assert_eq!(rt; *case, Case::default());
        }
    }
    Ok(())
}
