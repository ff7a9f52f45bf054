//! Tests of searches: turns, stacks, the machine, hands on threads, designs. They stand in a crate of their own, so that no library is proved again with its tests.
#![tactic(auto)]

#[cfg(test)]
mod design;
#[cfg(test)]
mod incumbent;
#[cfg(test)]
mod machine;
#[cfg(test)]
mod pool;
#[cfg(test)]
mod stack;
#[cfg(test)]
mod turn;
#[cfg(test)]
mod workers;
