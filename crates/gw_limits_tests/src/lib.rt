//! Tests of a gateway's database of associations at its limit, apart from the other tests since they take long.
#![tactic(auto)]

#[cfg(test)]
mod tests;
