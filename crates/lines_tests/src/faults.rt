// What is printed of a refusal.
use crate::calls::Call::Fault;
use crate::calls::writes;
use lines::Layer::{Line, Marks, Plan, Sheet, Text, Word};
use refusal::Refusal;
use std::test::Fail;

#[test]
fn faults(rt: HostRuntime) -> Result<(), Fail> {
    writes(
        &rt,
        &[
            (
                "a word",
                Fault(Refusal::BadNumber, Word, 12, 199),
                b"x,5,word,12,199\n",
            ),
            (
                "a line",
                Fault(Refusal::BadShape, Line, 2, 10),
                b"x,6,line,2,10\n",
            ),
            (
                "a text",
                Fault(Refusal::TooLong, Text, 0, 0),
                b"x,1,text,0,0\n",
            ),
            (
                "a mark",
                Fault(Refusal::BadMark, Marks, 2, 0),
                b"x,13,marks,2,0\n",
            ),
            (
                "a forecast",
                Fault(Refusal::ForecastTooLarge, Plan, 1, 0),
                b"x,15,plan,1,0\n",
            ),
            (
                "a bill",
                Fault(Refusal::BillTooHigh, Sheet, 0, 0),
                b"x,21,sheet,0,0\n",
            ),
            (
                "the largest places",
                Fault(
                    Refusal::ShortLine,
                    Line,
                    18446744073709551615,
                    18446744073709551615,
                ),
                b"x,25,line,18446744073709551615,18446744073709551615\n",
            ),
        ],
    )
}
