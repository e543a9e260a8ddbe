// Every promise of docs/PROMISES.md with its whole type, and no code: proofs/Promises.antt. tools/check-docs holds the two together.
#![tactic(auto)]
