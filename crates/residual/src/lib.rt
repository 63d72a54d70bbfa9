// No code: what a rule does at one token and the rule that is left after it, for every rule and both modes. Tables rest on it.
#![tactic(auto)]
