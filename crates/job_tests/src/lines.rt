// Lines and what they bring: 2, 3 and 7 to 11.
use crate::verdict::all;
use std::test::Fail;

#[test]
fn kinds(rt: HostRuntime) -> Result<(), Fail> {
    all(
        &rt,
        rt.alloc(),
        &[
            ("no line", b"", "ok"),
            ("empty lines are counted", b"\n\n ", "2,line,3,0"),
            ("byte 13 is no end", b"\r\n", "2,line,1,0"),
            ("no comma", b"m", "2,line,1,0"),
            ("another letter", b"x,a", "2,line,1,0"),
            (
                "the first line with a fault counts",
                b"m,a,1,*\nm,a,1,*\n?",
                "9,text,2,2",
            ),
            ("two commas for a motif", b"m,A,5", "3,line,1,5"),
            ("two commas for boxes", b"b,1,2", "3,line,1,5"),
            ("a comma in NET", b"m,a,1,*\nr,x,a <1,2> a", "3,line,2,13"),
            ("four commas for a mark", b"s,a,1,1,", "3,line,1,8"),
        ],
    )
}

#[test]
fn sizes(rt: HostRuntime) -> Result<(), Fail> {
    all(
        &rt,
        rt.alloc(),
        &[
            ("low is high", b"m,a,1,*\nr,x,a <1 1> a", "ok"),
            (
                "the first of two backward ranges",
                b"m,a,1,*\nr,x,a <1 1> a <2 1> a <1 0> a",
                "7,line,2,14",
            ),
            (
                "7 before the 8 to its left",
                b"m,a,1,*\nr,x,a a a a a a a a a a a a a <1 0> a",
                "7,line,2,30",
            ),
            (
                "sixteen items",
                b"m,a,1,1 1 1 1 1 1 1 1 1 1 1 1 1 1 1 1",
                "ok",
            ),
            (
                "seventeen items",
                b"m,a,1,1 1 1 1 1 1 1 1 1 1 1 1 1 1 1 1 1",
                "8,line,1,38",
            ),
            (
                "a class as the seventeenth",
                b"m,a,1,1 1 1 1 1 1 1 1 1 1 1 1 1 1 1 1 [1 2 3 4 5 6 7 8 9]",
                "8,line,1,38",
            ),
            ("eight codes", b"m,a,1,[1 2 3 4 5 6 7 8]", "ok"),
            (
                "nine codes, before the seventeenth item",
                b"m,a,1,[1 2 3 4 5 6 7 8 9] 1 1 1 1 1 1 1 1 1 1 1 1 1 1 1 1",
                "8,line,1,23",
            ),
            (
                "nine codes that are the same",
                b"m,a,1,[1 1 1 1 1 1 1 1 1]",
                "8,line,1,23",
            ),
            (
                "twelve names",
                b"m,a,1,*\nr,x,a a a a a a a a a a a a",
                "ok",
            ),
            (
                "thirteen names, behind a range",
                b"m,a,1,*\nr,x,a a a a a a a a a a a a <0 1> a",
                "8,line,2,34",
            ),
        ],
    )
}

#[test]
fn names(rt: HostRuntime) -> Result<(), Fail> {
    all(
        &rt,
        rt.alloc(),
        &[
            (
                "a rule called like a motif",
                b"m,a,1,*\nr,a,a\nb,5\ns,a,0,0\ns,a,1,1",
                "ok",
            ),
            ("a motif named twice", b"m,a,1,*\nm,a,2,5", "9,text,2,2"),
            (
                "a rule named twice, before its 10",
                b"m,a,1,*\nr,x,a\nr,x,b",
                "9,text,3,2",
            ),
            ("a motif that comes later", b"r,x,a\nm,a,1,*", "10,text,1,4"),
            (
                "the first unknown name",
                b"m,a,1,*\nr,x,a b <1 2> c",
                "10,text,2,6",
            ),
            (
                "the place behind a long name",
                b"m,a,1,*\nr,abcdefgh,b",
                "10,text,2,11",
            ),
            ("a mark of an unknown motif", b"s,a,0,0", "10,text,1,2"),
        ],
    )
}
