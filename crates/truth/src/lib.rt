// No code: specs/ has the words in which the crates above state what a test and a search answer.
#![tactic(auto)]
