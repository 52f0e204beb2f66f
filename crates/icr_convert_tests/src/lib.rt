//! Tests of the flow graphs that are made from forms.
#![tactic(auto)]

#[cfg(test)]
mod data;
#[cfg(test)]
mod exits;
#[cfg(test)]
mod forms;
#[cfg(test)]
mod functions;
#[cfg(test)]
mod shown;
