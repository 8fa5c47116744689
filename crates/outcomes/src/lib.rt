// No code: what is proved of all public calls together.
#![tactic(auto)]
