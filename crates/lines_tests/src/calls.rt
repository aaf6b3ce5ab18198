// A call that writes a line, and what has to hold of it in too little, just enough and more than enough room.
use entry::Name;
use lines::{Layer, write_end, write_fault, write_find, write_plan};
use refusal::Refusal;
use std::process::Abort;
use std::test::Fail;
use walk::{Letter, Order};

#[derive(Clone, Copy)]
pub enum Call<'a> {
    Plan(&'a [u8], usize, &'a [Letter], u64),
    Find(&'a [u8], &'a [u32]),
    End(&'a [u8], u64, u64),
    Fault(Refusal, Layer, usize, usize),
}

impl Call<'_> {
    fn write(self, out: &mut [u8]) -> Result<usize, Refusal> {
        match self {
            Call::Plan(name, seed, letters, price) => {
                write_plan(out, &Name::new(name)?, Order { seed, letters }, price)
            },
            Call::Find(name, numbers) => write_find(out, &Name::new(name)?, numbers),
            Call::End(name, finds, bill) => write_end(out, &Name::new(name)?, finds, bill),
            Call::Fault(refusal, layer, line, place) => write_fault(
                out, refusal, layer, line, place,
            ),
        }
    }
}

const MARK: u8 = 7;

const ROOM: usize = 200;

// Whether all bytes are as they were before the call.
fn untouched(bytes: &[u8]) -> bool {
    bytes.iter().all(|byte| *byte == MARK)
}

// `about` says of a failure which row and which room it was.
fn is_written(
    rt: &impl Abort,
    about: (&str, &str),
    call: Call<'_>,
    wanted: &[u8],
    out: &mut [u8],
) -> Result<(), Fail> {
    let (row, room) = about;
    assert_eq!(rt; call.write(out)?, wanted.len(), "{row}, {room}: the answer");
    assert!(rt; wanted.len() <= out.len());
    let (line, behind) = out.split_at(wanted.len());
    assert!(rt; line == wanted, "{row}, {room}: the line");
    assert!(rt; untouched(behind), "{row}, {room}: the bytes behind it");
    Ok(())
}

fn is_refused(rt: &impl Abort, about: (&str, &str), call: Call<'_>, out: &mut [u8]) {
    let (row, room) = about;
    let refused = call.write(out).err().map(Refusal::number);
    assert_eq!(rt; refused, Some(25), "{row}, {room}");
    assert!(rt; untouched(out), "{row}, {room}: after a refusal");
}

fn is_line(rt: &impl Abort, row: &str, call: Call<'_>, wanted: &[u8]) -> Result<(), Fail> {
    let len = wanted.len();
    assert!(rt; 0 < len && len <= ROOM);
    is_written(
        rt,
        (row, "more than enough"),
        call,
        wanted,
        &mut [MARK; ROOM],
    )?;
    is_written(
        rt,
        (row, "just enough"),
        call,
        wanted,
        &mut [MARK; ROOM][0..len],
    )?;
    is_refused(
        rt,
        (row, "one byte too few"),
        call,
        &mut [MARK; ROOM][0..len - 1],
    );
    is_refused(rt, (row, "no byte"), call, &mut []);
    Ok(())
}

pub fn writes(rt: &impl Abort, rows: &[(&str, Call<'_>, &[u8])]) -> Result<(), Fail> {
    for (about, call, wanted) in rows {
        is_line(rt, *about, *call, *wanted)?;
    }
    Ok(())
}
