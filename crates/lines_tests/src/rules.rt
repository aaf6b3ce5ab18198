// What is printed of a rule: its plan, its finds and its end.
use crate::calls::Call::{End, Find, Plan};
use crate::calls::writes;
use std::test::Fail;
use walk::Letter::{L, R};

const MOST: u64 = 18446744073709551615;

#[test]
fn the_ladder(rt: HostRuntime) -> Result<(), Fail> {
    writes(
        &rt,
        &[
            (
                "plan",
                Plan(b"ladder", 3, &[R, L, L], 86),
                b"p,ladder,3RLL,86\n",
            ),
            (
                "first find",
                Find(b"ladder", &[1, 2, 2, 2, 5, 6, 6, 6]),
                b"f,ladder,1,2,2,2,5,6,6,6\n",
            ),
            (
                "second find",
                Find(b"ladder", &[5, 6, 6, 6, 9, 10, 10, 10]),
                b"f,ladder,5,6,6,6,9,10,10,10\n",
            ),
            ("end", End(b"ladder", 2, 86), b"e,ladder,2,86\n"),
        ],
    )
}

#[test]
fn plans(rt: HostRuntime) -> Result<(), Fail> {
    writes(
        &rt,
        &[
            ("one motif", Plan(b"x", 1, &[], 4), b"p,x,1,4\n"),
            (
                "a seed of two digits",
                Plan(b"tenth", 10, &[L, L, L, L, L, L, L, L, L], 1234567890),
                b"p,tenth,10LLLLLLLLL,1234567890\n",
            ),
            (
                "twelve motifs",
                Plan(b"abcdefgh", 6, &[L, R, L, R, L, R, L, R, L, R, R], 99999),
                b"p,abcdefgh,6LRLRLRLRLRR,99999\n",
            ),
            ("the price 0", Plan(b"x", 2, &[L], 0), b"p,x,2L,0\n"),
            (
                "the largest price",
                Plan(b"x", 1, &[R], MOST),
                b"p,x,1R,18446744073709551615\n",
            ),
            (
                "no rule has such an order",
                Plan(b"x", 18446744073709551615, &[], 1),
                b"p,x,18446744073709551615,1\n",
            ),
        ],
    )
}

#[test]
fn finds_and_ends(rt: HostRuntime) -> Result<(), Fail> {
    writes(
        &rt,
        &[
            ("one motif", Find(b"x", &[0, 0]), b"f,x,0,0\n"),
            (
                "each number of digits",
                Find(b"x", &[9, 10, 99, 100, 999, 1000, 9999, 20000]),
                b"f,x,9,10,99,100,999,1000,9999,20000\n",
            ),
            (
                "the largest number",
                Find(b"x", &[4294967295]),
                b"f,x,4294967295\n",
            ),
            ("no number", Find(b"x", &[]), b"f,x\n"),
            ("no find", End(b"x", 0, 0), b"e,x,0,0\n"),
            (
                "a long bill",
                End(b"abcdefgh", 7, 1000000000000),
                b"e,abcdefgh,7,1000000000000\n",
            ),
            (
                "the largest numbers",
                End(b"x", MOST, MOST),
                b"e,x,18446744073709551615,18446744073709551615\n",
            ),
        ],
    )
}
