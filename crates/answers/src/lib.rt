//! What a call answers whose result a definition names: that result, or that memory was refused. A definition; no code.
#![tactic(auto)]
