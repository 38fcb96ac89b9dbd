// Definitions and laws of files as rows; no code.
#![tactic(auto)]
