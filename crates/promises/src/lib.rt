// No code: the promises about the paper's rules stand in proofs/, Promises first, and what they speak of in specs/.
#![tactic(auto)]
