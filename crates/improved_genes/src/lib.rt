// No code: what is proved of what Improve answers and writes.
#![tactic(auto)]
