// All places compared beforehand, by rank, so that labels alone tell which terms are equal. In specs/, `Settling` says what is settled.
#![tactic(auto)]

pub mod settle;
