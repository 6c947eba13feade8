//! Tests of what the output of scripts and programs doesn't show, and of the parts of which
//! controllers and drivers are made.
#![tactic(auto)]

#[cfg(test)]
mod arguments;
#[cfg(test)]
mod bits;
#[cfg(test)]
mod blocks;
#[cfg(test)]
mod checks;
#[cfg(test)]
mod harness;
#[cfg(test)]
mod host;
#[cfg(test)]
mod layout;
#[cfg(test)]
mod lent;
#[cfg(test)]
mod lines;
#[cfg(test)]
mod list_turns;
#[cfg(test)]
mod own_memory;
#[cfg(test)]
mod prp;
#[cfg(test)]
mod queue;
#[cfg(test)]
mod records_of_logs;
#[cfg(test)]
mod replies;
#[cfg(test)]
mod resets_over_runs;
#[cfg(test)]
mod stops;
#[cfg(test)]
mod streams;
#[cfg(test)]
mod subsystem;
