// The whole of what any list of calls on a sheet tells, as one definition, and the law that it holds of the sheet's model.
#![tactic(auto)]

ghost use Rattle.theorem.specs.Whole.{WholeStands};

// Every list of lay, look, take and wipe calls on a clean sheet, over a source of any lawful meaning, tells the whole.
pub fn whole_stands()
    ensures { WholeStands }
{}
