// Worked values of the kinds, their texts and the maps between them.
#![tactic(auto)]

#[cfg(test)]
mod tests;
