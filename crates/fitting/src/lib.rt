// A worked example: a kind of key and a kind of counter, fitted by the traits alone, and served by a meter and a sitting.
#![tactic(auto)]

mod entries;
pub mod entry;
pub mod first;
pub mod ipv6;
pub mod kinds;
pub mod serving;
pub mod space_saving;
#[cfg(test)]
mod tests;
