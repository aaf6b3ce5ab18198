// What the ink reads under a show, and that nothing is left of it.
use crate::strips::{Pair, strip_of};
use show::{ShowTest, in_turn};
use std::test::Fail;

const INK: [u8; 6] = [9, 8, 7, 6, 5, 4];

// Whether the ink reads as wanted while the show lasts.
fn reads(passed: ShowTest, ink: &mut [u8], wanted: &[u8]) -> bool {
    let show = passed.open(ink);
    show.ink() == wanted
}

#[test]
fn stretches(rt: HostRuntime) -> Result<(), Fail> {
    let cases: [(&str, &[Pair], usize, [u8; 6]); 8] = [
        ("one box", &[(3, 4)], 1, [9, 8, 7, 1, 5, 4]),
        ("the whole ink", &[(0, 6)], 1, [1, 1, 1, 1, 1, 1]),
        ("empty ones", &[(0, 0), (4, 4), (6, 6)], 3, INK),
        ("over an end", &[(1, 4), (3, 5)], 2, [9, 1, 1, 2, 2, 4]),
        ("over a start", &[(3, 5), (1, 4)], 2, [9, 2, 2, 2, 1, 4]),
        ("inside another", &[(1, 5), (2, 3)], 2, [9, 1, 2, 1, 1, 4]),
        ("the same", &[(2, 4), (2, 4)], 2, [9, 8, 2, 2, 5, 4]),
        ("only m", &[(0, 2), (1, 3), (0, 6)], 2, [1, 2, 2, 6, 5, 4]),
    ];
    for (about, stretches, m, wanted) in cases {
        let mut ink = INK;
        let passed = ShowTest::new(&strip_of(stretches), m, &ink)?;
        assert!(rt; reads(passed, &mut ink, wanted.as_slice()), "{}", about);
        assert!(rt; ink == INK, "{}", about);
    }
    Ok(())
}

#[test]
fn another_ink(rt: HostRuntime) -> Result<(), Fail> {
    let passed = ShowTest::new(&strip_of(&[(0, 2), (1, 5), (5, 6)]), 3, &INK)?;
    let mut short = [9, 8, 7];
    assert!(rt;
        reads(passed, &mut short, &[1, 2, 2]),
        "only the boxes that it has"
    );
    assert!(rt; short == [9, 8, 7], "as before");
    assert!(rt; reads(passed, &mut [], &[]), "no box");
    Ok(())
}

#[test]
fn a_long_ink(rt: HostRuntime) -> Result<(), Fail> {
    let mut ink = vec![in rt.alloc(); 7; 20_000]?;
    let passed = ShowTest::new(
        &strip_of(&[(19_940, 20_000), (19_996, 20_000)]),
        2,
        ink.as_slice(),
    )?;
    for (i, wanted) in [
        (19_939, Some(7)),
        (19_940, Some(1)),
        (19_999, Some(2)),
        (20_000, None),
    ] {
        assert_eq!(rt; passed.glimpse(ink.as_mut_slice(), i), wanted);
    }
    assert!(rt; ink.iter().all(|byte| *byte == 7));
    Ok(())
}

#[test]
fn one_after_the_other(rt: HostRuntime) -> Result<(), Fail> {
    let mut ink = INK;
    let first = ShowTest::new(&strip_of(&[(0, 4)]), 1, &ink)?;
    let second = ShowTest::new(&strip_of(&[(0, 1), (2, 6)]), 2, &ink)?;
    assert_eq!(rt; in_turn(first, second, &mut ink, 3), (Some(1), Some(2)));
    assert_eq!(rt; in_turn(first, second, &mut ink, 6), (None, None));
    assert!(rt; ink == INK);
    Ok(())
}
