// What a reader relies on, stated over lists of calls and proved: the paper's machine with counts that grow for ever,
// and the theorems over any sequence of calls. A crate without code: it may not know how anything is done.
#![tactic(auto)]
