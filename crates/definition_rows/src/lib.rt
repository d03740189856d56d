//! Worked programs, on which the definitions from trees to flat forms are computed.
#![tactic(auto)]
