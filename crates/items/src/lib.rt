// What stands between the terms of a text: the brackets, commas and bars of sets and of arguments. In specs/, `Items` says what is read at each.
#![tactic(auto)]

pub mod item;
