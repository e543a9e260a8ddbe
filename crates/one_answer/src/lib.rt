// One answer: for every public function of every library, two results that meet its contract are equal (proofs/OneAnswer.antt). No code.
#![tactic(auto)]
