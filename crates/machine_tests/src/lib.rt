//! Tests of the machine's crates and of runs in threads, through their public calls.
#![tactic(auto)]

#[cfg(test)]
mod growths;
#[cfg(test)]
mod inboxes;
#[cfg(test)]
mod paces;
#[cfg(test)]
mod runs;
#[cfg(test)]
mod values;
