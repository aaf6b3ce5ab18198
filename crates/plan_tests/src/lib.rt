// What count, weigh, price and plan answer, as tables: a case, what is asked, and the answer that is wanted.
#![tactic(auto)]

#[cfg(test)]
mod books;
#[cfg(test)]
mod counts;
#[cfg(test)]
mod forecasts;
#[cfg(test)]
mod plans;
