// What the reader takes and refuses, as tables: a case, its job, and the verdict that is wanted.
#![tactic(auto)]

#[cfg(test)]
mod limits;
#[cfg(test)]
mod lines;
#[cfg(test)]
mod shapes;
#[cfg(test)]
mod verdict;
#[cfg(test)]
mod words;
