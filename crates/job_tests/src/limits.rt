// Limits hit exactly and passed by one, and what a refused text leaves.
use crate::verdict::judged;
use book::Chapter;
use job::read_job;
use std::alloc::{AllocError, Global};
use std::test::Fail;

// The start, the part so many times, and the end.
fn built(
    heap: Global,
    start: &[u8],
    part: &[u8],
    times: usize,
    end: &[u8],
) -> Result<Vec<u8>, AllocError> {
    let mut job = Vec::new(heap);
    job.extend_from_slice(start)?;
    for _ in 0..times {
        job.extend_from_slice(part)?;
    }
    job.extend_from_slice(end)?;
    Ok(job)
}

#[test]
fn lengths(rt: HostRuntime) -> Result<(), Fail> {
    let heap = rt.alloc();
    let cases: [(&str, &[u8], &[u8], usize, &[u8], &str); 8] = [
        ("60,000 bytes", b"", b"\n", 60_000, b"", "ok"),
        (
            "60,001 bytes, before every line",
            b"?",
            b"\n",
            60_000,
            b"",
            "1,text,0,0",
        ),
        (
            "60,000 bytes, so line 1 counts",
            b"?",
            b"\n",
            59_999,
            b"",
            "2,line,1,0",
        ),
        ("60,000 commas", b"", b",", 60_000, b"", "1,text,1,200"),
        ("a line of 200 bytes", b"b,", b"1 ", 98, b"11", "ok"),
        (
            "a line of 201 bytes",
            b"b,",
            b"1 ",
            98,
            b"111",
            "1,text,1,200",
        ),
        (
            "201 bytes that are no line",
            b"",
            b"?",
            201,
            b"",
            "1,text,1,200",
        ),
        (
            "a long line in its turn",
            b"?\nb,",
            b"1 ",
            150,
            b"1",
            "2,line,1,0",
        ),
    ];
    for (about, start, part, times, end, wanted) in cases {
        let job = built(heap, start, part, times, end)?;
        judged(&rt, heap, about, job.as_slice(), wanted)?;
    }
    Ok(())
}

#[test]
fn rooms(rt: HostRuntime) -> Result<(), Fail> {
    let heap = rt.alloc();
    let cases: [(&str, &[u8], &[u8], usize, &[u8], &str); 5] = [
        ("20,000 boxes", b"", b"b,0 0 0 0 0\n", 4_000, b"", "ok"),
        (
            "20,001 boxes",
            b"",
            b"b,0 0 0 0 0\n",
            4_000,
            b"b,1",
            "11,text,4001,0",
        ),
        (
            "the last line has room for one of two",
            b"b,1 1 1 1\n",
            b"b,0 0 0 0 0\n",
            3_999,
            b"b,2 2",
            "11,text,4001,0",
        ),
        ("4,000 marks", b"m,a,1,*\n", b"s,a,0,0\n", 4_000, b"", "ok"),
        (
            "4,001 marks",
            b"m,a,1,*\n",
            b"s,a,0,0\n",
            4_001,
            b"",
            "11,text,4002,0",
        ),
    ];
    for (about, start, part, times, end, wanted) in cases {
        let job = built(heap, start, part, times, end)?;
        judged(&rt, heap, about, job.as_slice(), wanted)?;
    }
    Ok(())
}

const SIXTEEN: &[u8] =
    b"m,a,1,*\nm,b,1,*\nm,c,1,*\nm,d,1,*\nm,e,1,*\nm,f,1,*\nm,g,1,*\nm,h,1,*\nm,i,1,*\nm,j,1,*\nm,k,1,*\nm,l,1,*\nm,m,1,*\nm,n,1,*\nm,o,1,*\nm,p,1,*\n";

const EIGHT: &[u8] = b"m,a,1,*\nr,a,a\nr,b,a\nr,c,a\nr,d,a\nr,e,a\nr,f,a\nr,g,a\nr,h,a\n";

#[test]
fn entries(rt: HostRuntime) -> Result<(), Fail> {
    let heap = rt.alloc();
    let cases: [(&str, &[u8], &[u8], &str); 7] = [
        ("16 motifs", SIXTEEN, b"", "ok"),
        ("17 motifs", SIXTEEN, b"m,q,1,*", "11,text,17,0"),
        ("9 before 11", SIXTEEN, b"m,a,1,*", "9,text,17,2"),
        ("6 before 11", SIXTEEN, b"m,q,1,", "6,line,17,6"),
        ("8 rules", EIGHT, b"", "ok"),
        ("9 rules", EIGHT, b"r,i,a", "11,text,10,0"),
        ("10 before 11", EIGHT, b"r,i,b", "10,text,10,4"),
    ];
    for (about, start, end, wanted) in cases {
        let job = built(heap, start, b"", 0, end)?;
        judged(&rt, heap, about, job.as_slice(), wanted)?;
    }
    Ok(())
}

#[test]
fn what_is_left(rt: HostRuntime) -> Result<(), Fail> {
    let mut chapter = Chapter::new(rt.alloc())?;
    assert!(rt; read_job(b"m,a,300,45 .\nb,5 6\nb,7 x\nb,8", &mut chapter).is_err());
    assert_eq!(rt; chapter.book.motifs().len(), 1, "the line before");
    assert_eq!(rt;
        chapter.row().len(),
        2,
        "nothing of the line with the fault"
    );
    assert!(rt;
        read_job(b"b,9\ns,a,1,0", &mut chapter).is_ok(),
        "reading goes on"
    );
    assert_eq!(rt; chapter.row().len(), 3);
    assert_eq!(rt; chapter.marks().len(), 1);
    Ok(())
}
