//! Tests what no program reaches of the rules of loads and of the parts of a driver: the plain programs of
//! the definitions, clusters for a chain, and readers and writers of std that fail.
#![tactic(auto)]

#[cfg(test)]
mod tests;
