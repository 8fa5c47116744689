// No code: the worked plans of document 01, by the rules.
#![tactic(auto)]
