// Reading and writing undo each other. Theorems only, in specs/. `QuestionText` has `written-then-read`: the text of a good question is
// read as that question; under it stand `Suffix`, `Decimals`, `Names`, `TermText` and `LineText`. `QuestionSpans` has `read-then-written`:
// every text that is read is the text of the question that was read; under it stand `Spans`, `TermSpans` and `Counted`.
#![tactic(auto)]
