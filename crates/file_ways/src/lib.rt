// Demand 3 at each point of a file: what a line `probe` says of the ways to settle all measures. And no call of a file that is taken is refused.
#![tactic(auto)]

pub mod promises;
