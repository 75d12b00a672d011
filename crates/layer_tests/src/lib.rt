//! Tests of the layers below the node, over their public calls: for each layer tables of steps, and what each answers.
//!
//! One function without clauses carries out a step and says whether it answered as wanted. So the check knows nothing of
//! the steps before, and a further row costs next to nothing. A row fails too where memory was wanting.
#![tactic(auto)]

#[cfg(test)]
mod attached;
#[cfg(test)]
mod blocks;
#[cfg(test)]
mod channels;
#[cfg(test)]
mod edges;
#[cfg(test)]
mod guests;
#[cfg(test)]
mod holders;
#[cfg(test)]
mod names;
#[cfg(test)]
mod numbers;
#[cfg(test)]
mod pairs;
#[cfg(test)]
mod permits;
#[cfg(test)]
mod records;
#[cfg(test)]
mod spaces;
#[cfg(test)]
mod ways;
