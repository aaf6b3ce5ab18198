// Prices and plans.
use crate::books::{ROW, ladder, marks, page, refusal_of};
use counter::{CountRoom, count};
use few::Few;
use forecast::{Forecast, Runs};
use plan::{plan, price};
use planner::{Charge, Planned, Tariff, Width, price_by};
use std::test::Fail;
use walk::Letter::{L, R};
use walk::{Letter, Order};

fn is_planned(planned: &Planned, seed: usize, letters: &[Letter], price: u64) -> bool {
    let order = planned.order();
    order.seed == seed && order.letters == letters && planned.price == price
}

#[test]
fn the_ladder(rt: HostRuntime) -> Result<(), Fail> {
    let heap = rt.alloc();
    let book = ladder(heap)?;
    let row = ROW;
    let source = page(heap, &row, &book)?;
    let mut room = CountRoom::new(heap)?;
    let counted = count(&mut room, &source, &book, 0)?;
    let cases = [
        ("1RRR", 1, [R, R, R], 90),
        ("2RLR", 2, [R, L, R], 98),
        ("3RLL", 3, [R, L, L], 86),
        ("4LLL", 4, [L, L, L], 86),
    ];
    for (about, seed, letters, wanted) in cases {
        let order = Order {
            seed,
            letters: &letters,
        };
        assert_eq!(rt;
            price(&book, 0, order, &counted, &source)?,
            wanted,
            "{}",
            about
        );
    }
    let planned = plan(&book, 0, &counted, &source)?;
    assert!(rt; is_planned(&planned, 3, &[R, L, L], 86), "3RLL is planned");
    assert_eq!(rt;
        price(&book, 0, planned.order(), &counted, &source)?,
        86,
        "and priced alike"
    );
    let same = count(&mut room, &source, &book, 1)?;
    let other = plan(&book, 0, &same, &source)?;
    assert!(rt;
        is_planned(&other, 3, &[R, L, L], 26),
        "by another rule's forecast"
    );
    Ok(())
}

#[test]
fn refused(rt: HostRuntime) -> Result<(), Fail> {
    let heap = rt.alloc();
    let book = ladder(heap)?;
    let source = marks(heap)?;
    let none = Forecast::new(12, Runs::zeros())?;
    let cases = [
        ("an L too many", 0, 2, [R, L, L], Some(16)),
        ("an R too many", 0, 2, [R, R, R], Some(16)),
        ("no motif 0", 0, 0, [R, R, R], Some(16)),
        ("no motif 5", 0, 5, [L, L, L], Some(16)),
        ("an order of a longer rule", 1, 1, [R, R, R], Some(16)),
        ("no such rule", 3, 1, [R, R, R], Some(14)),
        (
            "no such rule, whatever the order",
            3,
            9,
            [L, L, L],
            Some(14),
        ),
    ];
    for (about, rule, seed, letters, wanted) in cases {
        let order = Order {
            seed,
            letters: &letters,
        };
        assert_eq!(rt;
            refusal_of(price(&book, rule, order, &none, &source)),
            wanted,
            "{}",
            about
        );
    }
    assert_eq!(rt; refusal_of(plan(&book, 3, &none, &source)), Some(14));
    Ok(())
}

// A forecast of 12 boxes that has these numbers, and else 0.
fn forecast_of(numbers: &[(usize, usize, u64)]) -> Result<Forecast, Fail> {
    let mut runs = Runs::zeros();
    for (first, last, number) in numbers {
        runs.put(*first, *last, *number);
    }
    Ok(Forecast::new(12, runs)?)
}

#[test]
fn by_any_forecast(rt: HostRuntime) -> Result<(), Fail> {
    let heap = rt.alloc();
    let book = ladder(heap)?;
    let row = ROW;
    let source = page(heap, &row, &book)?;
    let cases = [
        (
            "all alike: the first seed, and R",
            [(0, 0, 0), (0, 0, 0), (0, 0, 0), (0, 0, 0)],
            1,
            [R, R, R],
            26,
        ),
        (
            "all but the first: the next seed, and R as long as it can",
            [(1, 1, 9), (0, 0, 0), (0, 0, 0), (0, 0, 0)],
            2,
            [R, R, L],
            26,
        ),
        (
            "two seeds alike: the smaller",
            [(1, 1, 9), (2, 2, 1), (3, 3, 1), (4, 4, 9)],
            2,
            [L, R, R],
            30,
        ),
        (
            "letters alike: R first",
            [(1, 1, 9), (2, 2, 9), (4, 4, 9), (0, 0, 0)],
            3,
            [R, L, L],
            26,
        ),
        (
            "R is dearer",
            [(1, 1, 9), (2, 2, 9), (4, 4, 9), (3, 4, 1)],
            3,
            [L, R, L],
            26,
        ),
    ];
    for (about, numbers, seed, letters, wanted) in cases {
        let planned = plan(&book, 0, &forecast_of(&numbers)?, &source)?;
        assert!(rt; is_planned(&planned, seed, &letters, wanted), "{}", about);
    }
    Ok(())
}

#[test]
fn twelve_motifs(rt: HostRuntime) -> Result<(), Fail> {
    let heap = rt.alloc();
    let book = ladder(heap)?;
    let source = marks(heap)?;
    let mut runs = Runs::zeros();
    for first in 1..13 {
        for last in first..13 {
            runs.put(first, last, ((5 * first + 3 * last) % 7) as u64);
        }
    }
    let forecast = Forecast::new(100, runs)?;
    let planned = plan(&book, 2, &forecast, &source)?;
    assert!(rt; is_planned(&planned, 2, &[R, R, R, R, L, R, R, R, R, R, R], 194));
    Ok(())
}

// Thirteen looks at 2 for the seed, and then the second motif four times over the range.
#[test]
fn by_any_widths(rt: HostRuntime) -> Result<(), Fail> {
    let first = Charge {
        look: 2,
        opening: 5,
    };
    let second = Charge {
        look: 3,
        opening: 7,
    };
    let charges = Few::of(first, &[first, second]).unwrap();
    let width = Width { places: 10 };
    let cases = [
        ("no width", Few::none(width), 54),
        ("one", Few::of(width, &[width]).unwrap(), 174),
        (
            "ten more, which are not read",
            Few::of(width, &[width; 11]).unwrap(),
            174,
        ),
    ];
    let forecast = forecast_of(&[(1, 1, 4)])?;
    for (about, widths, wanted) in cases {
        let order = Order {
            seed: 1,
            letters: &[R],
        };
        let Some(tariff) = Tariff::new(charges, widths) else {
            return Err(Fail::new("no motif is charged"));
        };
        assert_eq!(rt;
            price_by(&tariff, &forecast, order),
            Some(wanted),
            "{}",
            about
        );
    }
    Ok(())
}
