// What is forecast of a rule: a length, and a number for each run of its motifs.
#![tactic(auto)]

mod forecasts;
pub mod runs;
pub mod value;

pub use self::runs::Runs;
pub use self::value::Forecast;
