//! Rows of calls that no line of a program reaches: tests alone.
#![tactic(auto)]

#[cfg(test)]
mod clones;
#[cfg(test)]
mod locks;
#[cfg(test)]
mod names;
#[cfg(test)]
mod open_files;
#[cfg(test)]
mod paths;
#[cfg(test)]
mod properties;
#[cfg(test)]
mod runs;
#[cfg(test)]
mod trees;
#[cfg(test)]
mod words;
