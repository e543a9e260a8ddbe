// Theorems on the program `serial`, and no code: what it prints, in whatever cuts its input comes, are the lines of the listing. The
// statement stands in specs/, its proof in proofs/.
#![tactic(auto)]
