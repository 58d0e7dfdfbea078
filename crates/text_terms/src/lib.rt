//! Words for texts, in specs/ alone: lines, words, numerals, and the first faulty item of a list.
#![tactic(auto)]
