// The published grammar as a relation, and the proof that a code is accepted exactly when it derives the code.
#![tactic(auto)]
