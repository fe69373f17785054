// What a reader must believe: specs/Lib.antt opens with a table of all notions. This crate has no code.
#![tactic(auto)]
