// What recovery start reads off a medium: which entries count, and their replay over the table.
#![tactic(auto)]

pub mod entries;
pub mod scan;
