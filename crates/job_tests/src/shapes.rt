// Shapes: 6, at the end of the longest beginning that can be completed.
use crate::verdict::all;
use std::test::Fail;

#[test]
fn fields(rt: HostRuntime) -> Result<(), Fail> {
    all(
        &rt,
        rt.alloc(),
        &[
            ("a letter in CODES", b"b,5 X", "6,line,1,4"),
            ("a letter in W", b"m,a,X,*", "6,line,1,4"),
            ("A before B", b"s,le,x,y", "6,line,1,5"),
            ("W before BODY", b"m,a,x,[", "6,line,1,4"),
            ("no CODES", b"b,", "6,line,1,2"),
            ("no W", b"m,a,,*", "6,line,1,4"),
            ("no BODY", b"m,a,1,", "6,line,1,6"),
            ("no NET", b"r,x,", "6,line,1,4"),
            ("no A", b"s,a,,", "6,line,1,4"),
            ("a space behind CODES", b"b,45 ", "6,line,1,5"),
            ("a space behind BODY", b"m,a,1,45 ", "6,line,1,9"),
            ("a space behind NET", b"m,a,1,*\nr,x,a ", "6,line,2,6"),
            ("a space behind W", b"m,a,300 ,*", "6,line,1,7"),
            ("a space behind B", b"s,a,1,1 ", "6,line,1,7"),
            ("a space before", b"b, 45", "6,line,1,2"),
            ("two spaces", b"b,45  46", "6,line,1,5"),
            ("two spaces in NET", b"m,a,1,*\nr,x,a  a", "6,line,2,6"),
            ("byte 13 behind", b"m,a,1,45\r\n", "6,line,1,8"),
            ("byte 255 in NET", b"m,a,1,45\nr,x,a \xff", "6,line,2,6"),
            ("byte 0", b"b,45\0", "6,line,1,4"),
        ],
    )
}

#[test]
fn bodies(rt: HostRuntime) -> Result<(), Fail> {
    all(
        &rt,
        rt.alloc(),
        &[
            ("a class", b"m,a,1,[45 46]", "ok"),
            ("all kinds of items", b"m,a,1,97 . [45 46] 98", "ok"),
            ("a space behind the bracket", b"m,a,1,[ 45]", "6,line,1,7"),
            ("a space before the bracket", b"m,a,1,[45 ]", "6,line,1,10"),
            ("an empty class", b"m,a,1,[]", "6,line,1,7"),
            ("an open class", b"m,a,1,[45", "6,line,1,9"),
            ("a dot in a class", b"m,a,1,[45 .]", "6,line,1,10"),
            ("a class in a class", b"m,a,1,[45[46]]", "6,line,1,9"),
            ("no space before a dot", b"m,a,1,45.", "6,line,1,8"),
            ("no space behind a class", b"m,a,1,[45]46", "6,line,1,10"),
            ("a bracket alone", b"m,a,1,45]", "6,line,1,8"),
            ("an item behind the star", b"m,a,1,* 45", "6,line,1,7"),
            ("the star behind an item", b"m,a,1,45 *", "6,line,1,9"),
            ("a space behind the star", b"m,a,1,* ", "6,line,1,7"),
        ],
    )
}

#[test]
fn nets(rt: HostRuntime) -> Result<(), Fail> {
    all(
        &rt,
        rt.alloc(),
        &[
            (
                "a name where a number is due",
                b"m,hy,1,45\nr,l,hy <2 x> hy",
                "6,line,2,10",
            ),
            ("a range first", b"m,a,1,*\nr,x,<1 2> a", "6,line,2,4"),
            ("a range last", b"m,a,1,*\nr,x,a <1 2>", "6,line,2,11"),
            (
                "a range and a space last",
                b"m,a,1,*\nr,x,a <1 2> ",
                "6,line,2,12",
            ),
            ("two ranges", b"m,a,1,*\nr,x,a <1 2> <3 4> a", "6,line,2,12"),
            ("no space before", b"m,a,1,*\nr,x,a<1 2> a", "6,line,2,5"),
            ("no space behind", b"m,a,1,*\nr,x,a <1 2>a", "6,line,2,11"),
            ("one number", b"m,a,1,*\nr,x,a <1> a", "6,line,2,8"),
            ("three numbers", b"m,a,1,*\nr,x,a <1 2 3> a", "6,line,2,10"),
            (
                "a space behind the bracket",
                b"m,a,1,*\nr,x,a < 1 2> a",
                "6,line,2,7",
            ),
            (
                "a space before the bracket",
                b"m,a,1,*\nr,x,a <1 2 > a",
                "6,line,2,10",
            ),
            ("not closed", b"m,a,1,*\nr,x,a <1 2 a", "6,line,2,10"),
            ("cut off", b"m,a,1,*\nr,x,a <1", "6,line,2,8"),
            (
                "before the 7 to its left",
                b"m,a,1,*\nr,x,a <5 2> a ",
                "6,line,2,14",
            ),
        ],
    )
}
