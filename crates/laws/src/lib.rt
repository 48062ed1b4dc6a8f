// When two terms are equal, and when values solve a question. In specs/, `Laws` has the least equality that keeps the laws, `Equal` the test that computes,
// `Values` what solves a question. The theorems are in proofs/: `Agree` that the two agree; `Rank` what rank is, and why no set is inside
// itself; `Tails` what a split of two sets keeps.
#![tactic(auto)]
