// What the test of a show refuses, and what the ink reads under a show and after it, as tables.
#![tactic(auto)]

#[cfg(test)]
mod painted;
#[cfg(test)]
mod refused;
#[cfg(test)]
mod strips;
