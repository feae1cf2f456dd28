// Cases for each dictionary, with their expected answers.
#![tactic(auto)]

#[cfg(test)]
mod cases;
#[cfg(test)]
mod layered;
#[cfg(test)]
mod numbered;
#[cfg(test)]
mod pooled;
