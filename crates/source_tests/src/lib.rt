// What the four sources answer, as tables: a case, a question, and the answer that is wanted.
#![tactic(auto)]

#[cfg(test)]
mod asked;
#[cfg(test)]
mod layers;
#[cfg(test)]
mod marks;
#[cfg(test)]
mod rows;
