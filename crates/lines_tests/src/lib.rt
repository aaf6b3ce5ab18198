// The lines that are printed, as tables: a case, a call, and the line that is wanted.
#![tactic(auto)]

#[cfg(test)]
mod calls;
#[cfg(test)]
mod faults;
#[cfg(test)]
mod rules;
