// The demands have no code: they are stated and proved of the operations' contracts in specs/.
#![tactic(auto)]
