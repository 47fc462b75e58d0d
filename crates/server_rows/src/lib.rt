//! Rows of stores that are walked, restored and looked at, of records and snapshots, and of guesses at passwords: tests alone.
#![tactic(auto)]

#[cfg(test)]
mod calls;
#[cfg(test)]
mod guesses;
#[cfg(test)]
mod inspected;
#[cfg(test)]
mod records;
#[cfg(test)]
mod restored;
#[cfg(test)]
mod snapshots;
#[cfg(test)]
mod telling;
#[cfg(test)]
mod told;
