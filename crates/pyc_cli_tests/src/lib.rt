//! Tests of the commands and of the words that ask for them.
#![tactic(auto)]

#[cfg(test)]
mod calls;
#[cfg(test)]
mod expansions;
#[cfg(test)]
mod form_tables;
#[cfg(test)]
mod refusals;
#[cfg(test)]
mod refused_tables;
#[cfg(test)]
mod runs;
#[cfg(test)]
mod words;
