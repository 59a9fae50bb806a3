//! What the operators of the dialect do to a target and to the interpreter's state, and how a command of a session uses a table.
#![tactic(auto)]
