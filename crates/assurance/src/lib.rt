// No code: specs/ has the theorems that join what the solver, a verdict and the machine return.
#![tactic(auto)]
