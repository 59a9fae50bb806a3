//! What a session over machines and their tables answers, and when images with their tables carry a program.
#![tactic(auto)]
