//! Tests of what the targets stand on: the devices, the sink, and the judgement of logs that no run leaves; and runs of the targets from
//! outside, the transfer and the journal. Runs of the bundled targets are in the sessions of tests/.
//!
//! Each expected value was worked out by hand from the documents of the targets.
#![tactic(auto)]

#[cfg(test)]
mod commit_judgements;
#[cfg(test)]
mod devices;
#[cfg(test)]
mod journals;
#[cfg(test)]
mod kept_mail;
#[cfg(test)]
mod kept_records;
#[cfg(test)]
mod kept_writes;
#[cfg(test)]
mod pending_calls;
#[cfg(test)]
mod runs;
mod shelf;
#[cfg(test)]
mod sinks;
#[cfg(test)]
mod stores;
#[cfg(test)]
mod transfers;
#[cfg(test)]
mod with_cuts;
