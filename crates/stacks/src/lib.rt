// No code: specs/ has stacks, the inspections and the steps as rules, and what holds on every stack that a run can reach.
#![tactic(auto)]
