// The chip's versions and their names.
#![tactic(auto)]

mod features;
mod names;
mod spaces;

#[derive(Clone, Copy, Debug, PartialEq, Eq, PartialOrd, Ord)]
pub enum SguVersion {
    V1,
    V2,
    V2_1,
    V3,
    V3_1,
}
