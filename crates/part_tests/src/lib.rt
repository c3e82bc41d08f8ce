//! Tests of what a campaign is made of, through calls of the library: scenarios and the hits of a session under them; censuses, numbered results, the
//! book and reports; plans that grow; and what workers share, the tickets of a run and the requests of a reduction. Sizes, failures, causes and rows
//! of workers were worked out by hand, or found by an enumeration that knows no plans. What the program shows of all this is tested by the sessions of
//! tests/ and by examples/.
#![tactic(auto)]

#[cfg(test)]
mod adding;
#[cfg(test)]
mod books;
#[cfg(test)]
mod clean_up;
#[cfg(test)]
mod commits;
#[cfg(test)]
mod core_rows;
#[cfg(test)]
mod counting;
#[cfg(test)]
mod counts;
#[cfg(test)]
mod deliveries;
#[cfg(test)]
mod growing;
#[cfg(test)]
mod grown_books;
#[cfg(test)]
mod hits;
#[cfg(test)]
mod inputs;
#[cfg(test)]
mod listed_kinds;
#[cfg(test)]
mod lists;
#[cfg(test)]
mod loading;
#[cfg(test)]
mod made;
#[cfg(test)]
mod meetings;
#[cfg(test)]
mod one_step;
#[cfg(test)]
mod parts;
#[cfg(test)]
mod plain_rows;
#[cfg(test)]
mod probes;
#[cfg(test)]
mod reading;
#[cfg(test)]
mod refusals;
#[cfg(test)]
mod replacements;
#[cfg(test)]
mod reports;
#[cfg(test)]
mod rigged;
#[cfg(test)]
mod scenarios;
#[cfg(test)]
mod small;
#[cfg(test)]
mod texts;
#[cfg(test)]
mod values;
#[cfg(test)]
mod worker_rows;
#[cfg(test)]
mod workers;
