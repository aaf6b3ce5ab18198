// Names, classes, bodies, ranges and rules.
use crate::refused::refused;
use entry::{Body, Class, Item, Name, Range, Rule};
use refusal::Refusal;
use std::process::Abort;
use std::test::Fail;

#[test]
fn names(rt: HostRuntime) {
    let cases: [(&str, &[u8], Option<u8>); 9] = [
        ("no letter", b"", Some(4)),
        ("one letter", b"a", None),
        ("a and z", b"az", None),
        ("eight letters", b"abcdefgh", None),
        ("nine letters", b"abcdefghi", Some(4)),
        ("a capital", b"Hy", Some(4)),
        ("a digit", b"hy2", Some(4)),
        ("the byte before a", b"a`", Some(4)),
        ("the byte behind z", b"{a", Some(4)),
    ];
    for (about, letters, wanted) in cases {
        assert_eq!(rt; refused(Name::new(letters)), wanted, "{}", about);
    }
}

#[test]
fn classes(rt: HostRuntime) {
    let codes = [7; 9];
    assert_eq!(rt; refused(Class::new(&codes[0..0])), Some(6), "no code");
    assert_eq!(rt; refused(Class::new(&codes[0..1])), None, "one code");
    assert_eq!(rt;
        refused(Class::new(&codes[0..8])),
        None,
        "eight codes, repeats too"
    );
    assert_eq!(rt; refused(Class::new(&codes[0..9])), Some(8), "nine codes");
}

#[test]
fn bodies(rt: HostRuntime) {
    let items = [Item::Any; 17];
    assert_eq!(rt; refused(Body::new(&items[0..0])), Some(6), "no item");
    assert_eq!(rt; refused(Body::new(&items[0..1])), None, "one item");
    assert_eq!(rt; refused(Body::new(&items[0..16])), None, "sixteen items");
    assert_eq!(rt;
        refused(Body::new(&items[0..17])),
        Some(8),
        "seventeen items"
    );
}

fn fitting(rt: &impl Abort, item: &Item, cases: &[(&str, u16, bool)]) {
    for (about, code, wanted) in cases {
        assert_eq!(rt; item.fits_code(*code), *wanted, "{}", *about);
    }
}

#[test]
fn items(rt: HostRuntime) -> Result<(), Fail> {
    fitting(
        &rt,
        &Item::Code(45),
        &[("its code", 45, true), ("another code", 46, false)],
    );
    fitting(
        &rt,
        &Item::Any,
        &[("any box", 0, true), ("any box at all", 65535, true)],
    );
    fitting(
        &rt,
        &Item::Class(Class::new(&[45, 8208])?),
        &[
            ("the first of a class", 45, true),
            ("the last of a class", 8208, true),
            ("none of a class", 46, false),
            ("no code lies behind the last", 0, false),
        ],
    );
    Ok(())
}

#[test]
fn ranges(rt: HostRuntime) -> Result<(), Fail> {
    let cases: [(&str, i32, i32, Option<u8>); 7] = [
        ("the widest", -2000, 2000, None),
        ("the narrowest", 3, 3, None),
        ("low too low", -2001, 0, Some(5)),
        ("high too high", 0, 2001, Some(5)),
        ("low above high", 2, 1, Some(7)),
        ("5 before 7", 2001, 2000, Some(5)),
        ("the largest numbers", 2147483647, -2147483648, Some(5)),
    ];
    for (about, low, high, wanted) in cases {
        assert_eq!(rt; refused(Range::new(low, high)), wanted, "{}", about);
    }
    assert_eq!(rt;
        Range::new(-2000, 2000)?.width(),
        4001,
        "width of the widest"
    );
    assert_eq!(rt; Range::new(3, 3)?.width(), 1, "width of the narrowest");
    Ok(())
}

#[test]
fn rules(rt: HostRuntime) -> Result<(), Fail> {
    let name = Name::new(b"ladder")?;
    let motifs = [3; 13];
    let ranges = [Range::new(0, 0)?; 12];
    assert_eq!(rt;
        refused(Rule::new(name, &motifs[0..0], &ranges[0..0])),
        Some(6),
        "no motif"
    );
    assert_eq!(rt;
        refused(Rule::new(name, &motifs[0..1], &ranges[0..0])),
        None,
        "one motif"
    );
    assert_eq!(rt;
        refused(Rule::new(name, &motifs[0..1], &ranges[0..1])),
        Some(6),
        "a range too many"
    );
    assert_eq!(rt;
        refused(Rule::new(name, &motifs[0..3], &ranges[0..1])),
        Some(6),
        "a range too few"
    );
    assert_eq!(rt;
        refused(Rule::new(name, &motifs[0..12], &ranges[0..11])),
        None,
        "twelve motifs"
    );
    assert_eq!(rt;
        refused(Rule::new(name, &motifs[0..13], &ranges[0..12])),
        Some(8),
        "thirteen motifs"
    );
    let rule = Rule::new(name, &motifs[0..12], &ranges[0..11])?;
    assert_eq!(rt; rule.motifs().len(), 12);
    assert_eq!(rt; rule.ranges().len(), 11);
    Ok(())
}
