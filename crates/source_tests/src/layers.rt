// Both and window, over each other and over themselves.
use crate::asked::Question::{End, Start};
use crate::asked::answers;
use crate::marks::{at, opened};
use crate::rows::FAR;
use layer::{Both, Window};
use mark::MarkSource;
use source::{PricedSource, Source};
use std::alloc::Global;
use std::test::Fail;

fn long(heap: Global) -> Result<MarkSource, Fail> {
    opened(
        heap,
        12,
        &[at(0, 2, 4), at(0, 2, 9), at(0, 6, 12), at(1, 8, 8)],
    )
}

fn short(heap: Global) -> Result<MarkSource, Fail> {
    opened(heap, 8, &[at(0, 2, 6), at(1, 0, 0), at(1, 8, 8)])
}

#[test]
fn both(rt: HostRuntime) -> Result<(), Fail> {
    let heap = rt.alloc();
    let both = Both::new(short(heap)?, long(heap)?);
    assert_eq!(rt; both.length(), 8, "the first's length");
    assert_eq!(rt; both.prices(0), (2, 4));
    answers(
        &rt,
        &both,
        &[
            ("the second's is nearer", End(0, 2, 0), Some(4)),
            ("then the first's", End(0, 2, 5), Some(6)),
            ("the second's ends behind the first", End(0, 2, 7), None),
            ("in both", End(1, 8, 0), Some(8)),
            ("the second's", Start(0, 4, 0), Some(2)),
            ("an end behind the first", Start(0, 9, 0), None),
            ("the largest numbers", End(FAR, FAR, FAR), None),
        ],
    );
    let more = Both::new(both, long(heap)?);
    assert_eq!(rt; more.prices(0), (3, 6), "both over both");
    answers(
        &rt,
        &more,
        &[
            ("one stretch, given twice", End(0, 2, 0), Some(4)),
            ("the same", Start(0, 6, 0), Some(2)),
        ],
    );
    Ok(())
}

#[test]
fn windows(rt: HostRuntime) -> Result<(), Fail> {
    let heap = rt.alloc();
    let window = Window::new(long(heap)?, 2, 9);
    assert_eq!(rt; window.length(), 7);
    assert_eq!(rt; window.prices(0), (1, 2), "the prices below");
    answers(
        &rt,
        &window,
        &[
            (
                "counted from the window's first place",
                End(0, 0, 0),
                Some(2),
            ),
            ("up to its last place", End(0, 0, 3), Some(7)),
            ("what ends behind it", End(0, 4, 0), None),
            ("an empty stretch inside", End(1, 6, 0), Some(6)),
            ("counted from its first place too", Start(0, 2, 0), Some(0)),
            ("a least behind the start", Start(0, 2, 1), None),
            ("an end behind it", Start(0, 10, 0), None),
            ("the largest numbers", End(FAR, FAR, FAR), None),
        ],
    );
    assert_eq!(rt; Window::new(long(heap)?, 9, 2).length(), 0, "u above v");
    assert_eq!(rt;
        Window::new(long(heap)?, 99, 2).length(),
        0,
        "u above the length"
    );
    assert_eq!(rt;
        Window::new(long(heap)?, 4, FAR).length(),
        8,
        "v above the length"
    );
    answers(
        &rt,
        &Window::new(long(heap)?, 8, 3),
        &[(
            "an empty stretch in a window of none",
            End(1, 0, 0),
            Some(0),
        )],
    );
    Ok(())
}

#[test]
fn a_pile(rt: HostRuntime) -> Result<(), Fail> {
    let heap = rt.alloc();
    let below = Window::new(long(heap)?, 2, 12);
    let joined = Both::new(below, short(heap)?);
    let top = Window::new(joined, 2, 10);
    assert_eq!(rt; top.length(), 8);
    assert_eq!(rt; top.prices(1), (2, 4));
    answers(
        &rt,
        &top,
        &[
            ("from the lowest, shifted twice", End(0, 2, 0), Some(8)),
            ("from the second of both", End(0, 0, 0), Some(4)),
            ("from either", End(1, 4, 0), Some(4)),
            ("also at its last place but two", End(1, 6, 0), Some(6)),
        ],
    );
    Ok(())
}
