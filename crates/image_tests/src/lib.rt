// Tests of images at their edges: each refusal next to the nearest image that is accepted.
#![tactic(auto)]

#[cfg(test)]
mod tests;
