//! Tests alone: the structures at all places of the examples' types, against lists that are made by the definitions.
#![tactic(auto)]

#[cfg(test)]
mod tests_examples;
#[cfg(test)]
mod tests_labels;
#[cfg(test)]
mod tests_places;
#[cfg(test)]
mod tests_structures;
#[cfg(test)]
mod tests_walks;
