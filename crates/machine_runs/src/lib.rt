//! A machine that is watched, as a step function of runs: its stopping points by their addresses, its output gathered, and what a debugger beside it does. Definitions alone.
#![tactic(auto)]
