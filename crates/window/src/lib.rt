// No code: what a rule does on a part of a text, if it reads nothing past it, it does on the whole text. Open texts rest on it.
#![tactic(auto)]
