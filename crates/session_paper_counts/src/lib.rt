// The session as the paper has it, with counts that grow for ever, and that the code's session, whose counts are kept
// small, runs in step with it. A crate without code: it may not know anything that the session does not.
#![tactic(auto)]
