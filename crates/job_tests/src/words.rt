// Names and numbers: 4 and 5.
use crate::verdict::all;
use std::test::Fail;

#[test]
fn names(rt: HostRuntime) -> Result<(), Fail> {
    all(
        &rt,
        rt.alloc(),
        &[
            ("one letter", b"m,a,1,*", "ok"),
            ("eight letters", b"m,abcdefgh,1,*", "ok"),
            ("nine letters", b"m,abcdefghi,1,*", "4,word,1,2"),
            ("no letter", b"m,,1,*", "4,word,1,2"),
            (
                "a digit: the word is the whole field",
                b"m,hy2,1,*",
                "4,word,1,2",
            ),
            ("a space", b"m,h y,1,*", "4,word,1,2"),
            ("byte 255", b"m,a\xff,1,45", "4,word,1,2"),
            (
                "the name of a mark, before its 5",
                b"s,Le,99999,0",
                "4,word,1,2",
            ),
            (
                "a capital inside a range",
                b"m,hy,1,45\nr,l,hy <2 X> hy",
                "4,word,2,10",
            ),
            (
                "too long inside a range",
                b"m,hy,1,45\nr,l,hy <2 abcdefghi> hy",
                "4,word,2,10",
            ),
            ("behind a digit", b"m,hy,1,45\nr,l,hy2hY", "4,word,2,7"),
            (
                "before the 5 to its left",
                b"m,a,1,*\nr,x,a <99999 2> AA",
                "4,word,2,16",
            ),
        ],
    )
}

#[test]
fn numbers(rt: HostRuntime) -> Result<(), Fail> {
    all(
        &rt,
        rt.alloc(),
        &[
            ("0", b"b,0", "ok"),
            ("the highest code", b"b,65535", "ok"),
            ("one above it", b"b,65536", "5,word,1,2"),
            ("the highest weight", b"m,a,65535,*", "ok"),
            ("one above it", b"m,a,65536,*", "5,word,1,4"),
            ("the furthest place", b"m,a,1,*\ns,a,20000,20000", "ok"),
            ("one behind it", b"s,a,0,20001", "5,word,1,6"),
            ("the widest range", b"m,a,1,*\nr,x,a <-2000 2000> a", "ok"),
            ("one below it", b"m,a,1,*\nr,x,a <-2001 0> a", "5,word,2,7"),
            ("one above it", b"m,a,1,*\nr,x,a <0 2001> a", "5,word,2,9"),
            ("a leading zero", b"b,007", "5,word,1,2"),
            ("minus zero", b"m,a,1,*\nr,x,a <-0 1> a", "5,word,2,7"),
            ("a minus alone", b"m,a,1,*\nr,x,a <- 5> a", "5,word,2,7"),
            ("two minus signs", b"m,a,1,*\nr,x,a <--5 5> a", "5,word,2,7"),
            ("a minus inside", b"b,5 7-3", "5,word,1,4"),
            ("a minus behind", b"s,a,5-,0", "5,word,1,4"),
            ("below 0 where the limits begin at 0", b"b,-5", "5,word,1,2"),
            ("form and limits are one rule", b"b,65536 01", "5,word,1,2"),
            ("a second number in W", b"m,a,5 99999,*", "5,word,1,6"),
            (
                "where NET wants no number",
                b"m,a,1,*\nr,x,a 3000 a",
                "5,word,2,6",
            ),
            (
                "the same within the limits is a 6",
                b"m,a,1,*\nr,x,a 2000 a",
                "6,line,2,6",
            ),
            ("glued to a name", b"m,a,1,*\nr,x,a3000", "5,word,2,5"),
            ("behind the star", b"m,a,1,* 99999", "5,word,1,8"),
            ("before the 6 to its left", b"b,5 x 99999", "5,word,1,6"),
        ],
    )
}
