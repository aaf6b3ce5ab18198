// Making the calls of a list, each on the sheet that the one before left.
ghost use Rattle.std.specs.Prelude.{◌≡◌, ℕ, List, map, Some};
ghost use Rattle.perform.specs.Turns.{Replied, call_of, calls_in, handed, reply_to, said};
ghost use Rattle.sheet.specs.States.{sheet_of};
ghost use Rattle.sheet_model.specs.Sheet.{Reply as AnyReply, after, answer, answers, bill_of, clean};
ghost use Rattle.source.specs.Meaning.{priced};
ghost use Rattle.theorem.specs.Whole.{Whole};

use crate::values::{Answer, Call, Reply, Turn};
use sheet::Sheet;
use source::{PricedSource, Source};

impl Call<'_> {
    // Makes the call.
    fn make<S: PricedSource>(&mut self, sheet: &mut Sheet<S>) -> Reply
        ensures told { let offer = priced (S.Source.means sheet.old.source) (S.PricedSource.price sheet.old.source) in answer offer (sheet_of offer sheet.old.work) (call_of self.old) ≡ (sheet_of offer sheet.new.work, reply_to self.new result) }
        ensures source { sheet.new.source ≡ sheet.old.source }
        ensures handed { handed self.new ≡ handed self.old }
    {
        match *self {
            Call::Lay { book, rule, order } => sheet.lay(book, rule, order).map(|()| Answer::Done),
            Call::Look { allowance } => sheet.look(allowance).map(Answer::Looked),
            Call::Take { ref mut strip } => sheet.take(strip).map(|()| Answer::Done),
            Call::Wipe => {
                sheet.wipe();
                Ok(Answer::Done)
            }
        }
    }
}

// Makes the calls in turn, each on the sheet that the one before left, and puts each reply beside its call. Whatever the
// calls bring, nothing but their numbers refuses them, and nothing here wants memory.
pub fn perform<S: PricedSource>(sheet: &mut Sheet<S>, turns: &mut [Turn<'_>])
    ensures whole { let offer = priced (S.Source.means sheet.old.source) (S.PricedSource.price sheet.old.source) in sheet_of offer sheet.old.work ≡ clean → (rs : List AnyReply) × Replied turns.new rs × Whole offer (calls_in turns.old) rs (bill_of (sheet_of offer sheet.new.work)) }
    ensures replies { let offer = priced (S.Source.means sheet.old.source) (S.PricedSource.price sheet.old.source) in Replied turns.new (answers offer (sheet_of offer sheet.old.work) (calls_in turns.old)) }
    ensures sheet { let offer = priced (S.Source.means sheet.old.source) (S.PricedSource.price sheet.old.source) in sheet_of offer sheet.new.work ≡ after offer (sheet_of offer sheet.old.work) (calls_in turns.old) }
    ensures source { sheet.new.source ≡ sheet.old.source }
    ensures handed { map (λ t. handed t.call) turns.new ≡ map (λ t. handed t.call) turns.old }
{
    for turn in turns.iter_mut() {
        turn.reply = Some(turn.call.make(sheet));
    }
}
