// The comparison of the terms at two places, which recurses into members and arguments. `Classes` of `term_places` says what it tells.
#![tactic(auto)]

pub mod compare;
