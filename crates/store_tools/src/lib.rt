//! What a program does with a file of stores, as words ask for it: it is looked into, exported, salvaged, compacted, imported into, relieved of a lock, followed, or adopted as a copy.
#![tactic(auto)]

mod calls;
mod choices;
mod earlier;
mod exporting;
mod inputs;
mod looks;
mod running;

pub use running::run;
