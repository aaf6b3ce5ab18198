// What the calls that make a book and a chapter take and refuse, as tables: a case, and the number that is wanted.
#![tactic(auto)]

#[cfg(test)]
mod books;
#[cfg(test)]
mod entries;
#[cfg(test)]
mod refused;
