// What is proved of the definitions, once: docs/LAWS.md lists the main theorems. This crate has no code.
#![tactic(auto)]
