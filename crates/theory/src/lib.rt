#![tactic(auto)]
// Mathematics over plain functions and numbers: definitions and laws in specs/, no code.
