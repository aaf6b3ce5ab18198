// What the test passes, and by which number it refuses.
use crate::strips::{Pair, strip_of};
use refusal::Refusal;
use show::ShowTest;
use std::test::Fail;

const FAR: usize = 18446744073709551615;

// The number of the refusal, none where the show passes.
fn refused(strip: &[usize], m: usize, ink: &[u8]) -> Option<u8> {
    ShowTest::new(strip, m, ink).err().map(Refusal::number)
}

#[test]
fn stretches(rt: HostRuntime) -> Result<(), Fail> {
    let inks = vec![in rt.alloc(); 7; 20_000]?;
    let cases: [(&str, &[Pair], usize, usize, Option<u8>); 17] = [
        ("no stretch", &[], 0, 20, Some(24)),
        ("an empty stretch on no ink", &[(0, 0)], 1, 0, None),
        ("one box on no ink", &[(0, 1)], 1, 0, Some(24)),
        ("twelve empty stretches", &[], 12, 20, None),
        ("thirteen", &[], 13, 20, Some(24)),
        ("the largest m", &[], FAR, 20, Some(24)),
        ("a start at its end", &[(20, 20)], 1, 20, None),
        ("a start behind its end", &[(2, 1)], 1, 20, Some(24)),
        ("an end behind the ink", &[(20, 21)], 1, 20, Some(24)),
        ("the largest numbers", &[(0, FAR)], 1, 20_000, Some(24)),
        ("64 boxes", &[(0, 64)], 1, 64, None),
        ("65 boxes", &[(0, 65)], 1, 65, Some(24)),
        ("64 with repeats", &[(0, 32), (0, 32)], 2, 32, None),
        (
            "65 with repeats",
            &[(0, 32), (0, 32), (5, 6)],
            3,
            32,
            Some(24),
        ),
        ("bad, but behind m", &[(0, 32), (9, 5)], 1, 32, None),
        ("bad before good", &[(9, 5), (0, 1)], 2, 32, Some(24)),
        ("the last boxes", &[(19_936, 20_000)], 1, 20_000, None),
    ];
    for (about, stretches, m, len, wanted) in cases {
        assert!(rt; len <= inks.len());
        assert_eq!(rt;
            refused(&strip_of(stretches), m, &inks.as_slice()[0..len]),
            wanted,
            "{}",
            about
        );
    }
    Ok(())
}

#[test]
fn strips(rt: HostRuntime) {
    let strip = [0; 30];
    let cases = [
        ("none", 0, 1, Some(23)),
        ("23 numbers", 23, 1, Some(23)),
        ("23 before 24", 23, 0, Some(23)),
        ("24 numbers", 24, 0, Some(24)),
        ("just enough", 24, 12, None),
        ("more than 24", 30, 12, None),
    ];
    for (about, len, m, wanted) in cases {
        assert!(rt; len <= 30);
        assert_eq!(rt; refused(&strip[0..len], m, &[]), wanted, "{}", about);
    }
}
