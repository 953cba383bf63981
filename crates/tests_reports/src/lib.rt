//! Tests of the lines of reports and of their JSON: each head and each answer in both forms, written and read back, and texts that are nearly
//! reports. Whole calls are rows of `tests_rows`.
#![tactic(auto)]

#[cfg(test)]
mod both_forms;
#[cfg(test)]
mod near_objects;
#[cfg(test)]
mod parts;
#[cfg(test)]
mod reading;
#[cfg(test)]
mod specifications;
