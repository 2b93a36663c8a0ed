//! Examples of what the library answers, refusals among them: each is proved to be safe, and run.
#![tactic(auto)]

#[cfg(test)]
mod files;
#[cfg(test)]
mod jobs;
#[cfg(test)]
mod lists;
#[cfg(test)]
mod models;
#[cfg(test)]
mod questions;
