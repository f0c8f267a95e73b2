// Examples and limits of the library `book`, each over both registers.
#![tactic(auto)]

#[cfg(test)]
mod asking;
#[cfg(test)]
mod examples;
#[cfg(test)]
mod limits;
#[cfg(test)]
mod tables;
