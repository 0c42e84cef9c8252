// No code: what a reader must believe is in specs/, written from the Rust and from document 01.
#![tactic(auto)]
