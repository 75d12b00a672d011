//! Tests of the node, the world, the texts and the run, over their public calls. What a scenario can show is a case, which
//! the built program is run on.
#![tactic(auto)]

#[cfg(test)]
mod bench;
#[cfg(test)]
mod documents;
#[cfg(test)]
mod limits;
#[cfg(test)]
mod memory;
#[cfg(test)]
mod nodes;
#[cfg(test)]
mod printed;
#[cfg(test)]
mod readings;
#[cfg(test)]
mod runs;
#[cfg(test)]
mod spellings;
#[cfg(test)]
mod statuses;
#[cfg(test)]
mod ways;
#[cfg(test)]
mod worlds;
