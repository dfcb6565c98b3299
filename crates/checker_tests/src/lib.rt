//! Tests of the crates of the checker, of traces and of the search, through their public calls.
#![tactic(auto)]

#[cfg(test)]
mod devices;
#[cfg(test)]
mod drawn;
#[cfg(test)]
mod gates;
#[cfg(test)]
mod growths;
#[cfg(test)]
mod told;
