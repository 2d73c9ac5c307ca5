//! Tests of the layers below, through their public calls. Callers prove what their own bytes hold, or what a message that they read says,
//! from the public contracts of `osc_coap` alone. Other tests show what no contract and no row of the corpus can say about files, and about
//! keepers that go wrong.
#![tactic(auto)]

#[cfg(test)]
mod tests;
