// The placements of each rule of a book over a source, found by the planned order.
use book::Book;
use counter::{CountRoom, count};
use entry::Rule;
use lines::{Layer, write_end, write_find, write_plan};
use listing::{print_fault, print_line};
use plan::plan;
use sheet::{Sheet, Work};
use source::PricedSource;
use stack::Outcome;

const STRIP: usize = 24;

const ALLOWANCE: u32 = 1_000_000;

// What prints the rules of the book: each is counted in the room and laid on the sheet.
#[derive(Drop)]
struct RulePrinter<'a, S> {
    rt: &'a HostRuntime,
    book: &'a Book,
    sheet: Sheet<S>,
    room: CountRoom,
}

impl<S: PricedSource> RulePrinter<'_, S> {
    // Takes the find that the sheet holds, and prints it.
    fn print_find(&mut self, rule: &Rule) -> anyhow::Result<()> {
        let mut strip = [0; STRIP];
        self.sheet.take(&mut strip)?;
        match strip.get(..2 * rule.motifs().len()) {
            Some(find) => print_line(self.rt, |bytes| write_find(bytes, &rule.name, find)),
            None => Ok(()),
        }
    }

    // Goes on with the laid rule to the end, and prints its finds and its end; or that its bill came to the limit.
    fn print_finds(&mut self, rule: &Rule, number: usize) -> anyhow::Result<()> {
        let mut finds: u64 = 0;
        for _ in 0..u64::MAX {
            let looked = match self.sheet.look(ALLOWANCE) {
                Ok(looked) => looked,
                Err(refusal) => return print_fault(self.rt, refusal, Layer::Sheet, number, 0),
            };
            match looked.outcome {
                Outcome::Paused => {}
                Outcome::Found => {
                    finds = finds.saturating_add(1);
                    self.print_find(rule)?;
                }
                Outcome::Finished => {
                    return print_line(self.rt, |bytes| {
                        write_end(bytes, &rule.name, finds, looked.bill)
                    });
                }
            }
        }
        Ok(())
    }

    // Plans the rule by its count, and prints the plan and what comes of it; or that the count is too large.
    fn print_rule(&mut self, rule: &Rule, number: usize) -> anyhow::Result<()> {
        let forecast = match count(&mut self.room, self.sheet.source(), self.book, number) {
            Ok(forecast) => forecast,
            Err(refusal) => return print_fault(self.rt, refusal, Layer::Plan, number, 0),
        };
        let planned = plan(self.book, number, &forecast, self.sheet.source())?;
        print_line(self.rt, |bytes| {
            write_plan(bytes, &rule.name, planned.order(), planned.price)
        })?;
        self.sheet.wipe();
        self.sheet.lay(self.book, number, planned.order())?;
        self.print_finds(rule, number)
    }
}

pub fn print_rules<S: PricedSource + Drop>(
    rt: &HostRuntime,
    source: S,
    book: &Book,
) -> anyhow::Result<()> {
    let heap = rt.alloc();
    let mut printer = RulePrinter {
        rt,
        book,
        sheet: Sheet::new(Work::new(heap)?, source),
        room: CountRoom::new(heap)?,
    };
    for (number, rule) in book.rules().iter().enumerate() {
        printer.print_rule(rule, number)?;
    }
    Ok(())
}
