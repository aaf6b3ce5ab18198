// The sheet as definitions: what each call answers, what calls and replies tell, and the laws over any list of calls.
#![tactic(auto)]

ghost use Rattle.sheet_model.specs.History.{CallsTold};
ghost use Rattle.sheet_model.specs.Accounts.{CallsAccounted};

// Of every list of calls on a clean sheet: the finds taken are placements of the laid rule, no two alike; on a finished
// sheet none is missing, and the bill is the price by the true numbers of partial placements.
#[tactic(auto, using(crate::proofs::Histories::calls_told))]
pub fn calls_stand()
    ensures { CallsTold }
{}

// The same with more kept: the looks made, the bill at each step, and where in the walk they stand.
#[tactic(auto, using(crate::proofs::Sheets::calls_accounted))]
pub fn calls_accounted()
    ensures { CallsAccounted }
{}
