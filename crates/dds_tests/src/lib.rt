//! Tests of the libraries: cases whose results were worked out by hand, and printed texts.
#![tactic(auto)]

#[cfg(test)]
mod frames;
#[cfg(test)]
mod groups;
#[cfg(test)]
mod locks;
#[cfg(test)]
mod maps;
#[cfg(test)]
mod script;
#[cfg(test)]
mod sources_and_sinks;
#[cfg(test)]
mod stages;
#[cfg(test)]
mod transcript;
#[cfg(test)]
mod trie;
