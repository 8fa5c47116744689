// No code: what is proved of the decoders' sheets and the sheet check together.
#![tactic(auto)]
