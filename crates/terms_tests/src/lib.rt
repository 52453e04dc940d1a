// Tests of the crate `terms`, in a crate of their own so that it is proved without them.
#![tactic(auto)]

#[cfg(test)]
mod tests;
