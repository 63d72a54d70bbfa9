// No code: plain texts (SCOPE 8) as definitions, and the theorems that there the parsers' boundaries are those of UAX #29.
#![tactic(auto)]
