// What the programs share, on its happy paths, since it can want memory: a job read from a stream, and its sources.
#![tactic(auto)]

#[cfg(test)]
mod opened;
