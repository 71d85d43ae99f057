// Watchers at the ends of what they take: nesting, memory, readings and limits.
#![tactic(auto)]

#[cfg(test)]
mod tests;
