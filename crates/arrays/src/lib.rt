// Lists held in arrays: the definitions are in specs/, their laws in proofs/. No function.
#![tactic(auto)]
