// Demand 3: how many ways there are to settle all measures, after every list of calls, over any accepted rows and exact tables. It is one
// theorem over the definitions that the contracts of preparation, hold, cut, inspect and probe cite.
#![tactic(auto)]

pub mod promises;
